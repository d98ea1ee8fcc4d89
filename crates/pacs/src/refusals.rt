// What is wrong with a text, and where: the refusal that C is answered, and a number for people.
ghost use Rattle.std.specs.Prelude.{◌≡◌};
ghost use Rattle.pacs.specs.Wrongs.{wrong_refusal, wrong_number};

use crate::rows::Row;

#[derive(Clone, Copy)]
pub enum Wrong {
    // The text is too long.
    TooLong,
    // The declaration isn't one.
    Declaration,
    // The root is due.
    NoRoot,
    // A tag is due.
    NoTag,
    // What begins with < is no tag.
    NoName,
    // A tag isn't formed as one.
    TagForm,
    // An attribute's name stands twice.
    NameTwice,
    // The end tag of the open element is due.
    NoEndTag,
    // Elements nest too deep.
    TooDeep,
    // Something stands behind the root.
    BehindRoot,
    // The named element of a row is missing, holds an element, stands again.
    Missing(Row),
    Nested(Row),
    Again(Row),
    // The amount's attributes, the amount itself.
    Attributes,
    Amount,
    Sender,
    Payee,
    Txid,
    Iban,
}

#[derive(Clone, Copy)]
pub struct Refused {
    pub wrong: Wrong,
    pub place: usize,
}

impl Wrong {
    pub fn refusal(self) -> u8
        ensures { result ≡ wrong_refusal self }
    {
        match self {
            Wrong::TooLong
            | Wrong::Declaration
            | Wrong::NoRoot
            | Wrong::NoTag
            | Wrong::NoName
            | Wrong::TagForm
            | Wrong::NameTwice
            | Wrong::NoEndTag
            | Wrong::TooDeep
            | Wrong::BehindRoot => 23,
            Wrong::Missing(_) | Wrong::Nested(_) | Wrong::Again(_) => 24,
            Wrong::Attributes | Wrong::Amount => 25,
            Wrong::Sender | Wrong::Payee | Wrong::Txid => 7,
            Wrong::Iban => 8,
        }
    }

    // The number for people: `messages` prints it.
    pub fn number(self) -> u8
        ensures { result ≡ wrong_number self }
    {
        match self {
            Wrong::TooLong => 1,
            Wrong::Declaration => 2,
            Wrong::NoRoot => 3,
            Wrong::NoTag => 4,
            Wrong::NoName => 5,
            Wrong::TagForm => 6,
            Wrong::NameTwice => 7,
            Wrong::NoEndTag => 8,
            Wrong::TooDeep => 9,
            Wrong::BehindRoot => 10,
            Wrong::Attributes => 14,
            Wrong::Amount => 15,
            Wrong::Sender => 16,
            Wrong::Payee => 17,
            Wrong::Txid => 18,
            Wrong::Iban => 19,
            Wrong::Missing(row) => 32 + row.number as u8,
            Wrong::Nested(row) => 48 + row.number as u8,
            Wrong::Again(row) => 64 + row.number as u8,
        }
    }

    pub fn at(self, place: usize) -> Refused
        ensures { result ≡ record { wrong = self; place = place } }
    {
        Refused { wrong: self, place }
    }
}
