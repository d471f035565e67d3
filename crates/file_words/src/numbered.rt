// What is called by its name and a number, with a word of its own for number 0.
ghost use Rattle.file_words.specs.Tables.{numbered_text, point_text};
ghost use Rattle.file_words.specs.Zones.{name_text};
ghost use Rattle.std.specs.Prelude.{◌≡◌, Some};

use std::fmt;

/// A name with a number.
#[derive(Clone, Copy)]
pub struct Numbered {
    /// the number
    pub number: u8,
    /// the word for number 0
    pub zero: &'static str,
    /// the name of all others
    pub name: &'static str,
}

impl Numbered {
    /// A point of a zone: the clock, and the tokens numbered from 1.
    pub fn point(number: u8) -> Numbered
        ensures { numbered_text result.zero.now result.name.now result.number ≡ point_text number }
    {
        Numbered {
            number,
            zero: "clock",
            name: "token",
        }
    }

    /// A zone: the target, and the listed zones numbered from 1.
    pub fn zone(number: u8) -> Numbered
        ensures { numbered_text result.zero.now result.name.now result.number ≡ name_text number }
    {
        Numbered {
            number,
            zero: "target",
            name: "zone",
        }
    }
}

impl fmt::Display for Numbered {
    ghost output = { λ n. Some (numbered_text n.zero.now n.name.now n.number) };

    fn fmt<W: fmt::Write>(&self, f: &mut fmt::Formatter<W>) -> fmt::Result {
        let number = self.number;
        let name = self.name;
        if number == 0 {
            f.write_str(self.zero)
        } else {
            write!(f, "{name} {number}")
        }
    }
}
