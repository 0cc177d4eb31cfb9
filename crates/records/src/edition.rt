// What an edition of the function file fixes, as a value that is passed down.
ghost use Rattle.std.specs.Prelude.{◌≡◌};
ghost use Rattle.definition.specs.Contents.{contents, text};
ghost use Rattle.definition.specs.Edition.{edition1};
ghost use Rattle.records.specs.Editions.{words_at, limit_at, edition_of};

use slices::get;

// Lines, tokens and bytes of text.
#[derive(Clone, Copy)]
pub struct Room {
    pub lines: u32,
    pub tokens: u32,
    pub bytes: u32,
}

#[derive(Clone, Copy)]
pub struct Edition {
    pub number: u32,
    // How many sections there are, the text being the last.
    pub sections: u32,
    // The most bytes of a file.
    pub most: u32,
    // The words of each section's records, 0 for bytes, and the most records of each.
    pub words: [u32; 10],
    pub limits: [u32; 10],
    // What lowering may write, and what the caller lends.
    pub lowered: Room,
    pub lent: Room,
}

impl Edition {
    // Edition 1.
    pub fn first() -> Self
        ensures { edition_of result ≡ edition1 }
    {
        Edition {
            number: 1,
            sections: 9,
            most: 65536,
            words: [1, 10, 4, 1, 11, 2, 5, 4, 0, 0],
            limits: [16, 320, 512, 2048, 1024, 2048, 2048, 512, 16384, 0],
            lowered: Room {
                lines: 768,
                tokens: 6144,
                bytes: 32768,
            },
            lent: Room {
                lines: 1536,
                tokens: 6144,
                bytes: 32768,
            },
        }
    }

    // The bytes of the contents.
    pub fn contents(self) -> u64
        ensures { result ≡ contents (edition_of self) }
    {
        16 + 8 * u64::from(self.sections)
    }

    // The text's place among the sections.
    pub fn text(self) -> u32
        ensures { result ≡ text (edition_of self) }
    {
        self.sections.saturating_sub(1)
    }

    // The words of section s, and its most records; 0 behind the tables.
    pub fn words_at(self, s: u32) -> u32
        ensures { result ≡ words_at self s }
    {
        get(&self.words, s as usize)
    }

    pub fn limit_at(self, s: u32) -> u32
        ensures { result ≡ limit_at self s }
    {
        get(&self.limits, s as usize)
    }
}
