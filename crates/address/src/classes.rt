ghost use Rattle.std.specs.Prelude.{◌≡◌, ℕ, ◌<◌};
ghost use Rattle.address.specs.Classes.{classes_of, member};

// The classes of octets, each with the number that stands for it in the table.
#[derive(Clone, Copy)]
pub enum Class {
    // what a local part without quote marks takes
    Atext = 1,
    // what a quoted local part takes without a backslash
    Qtext = 2,
    // letters and digits
    LetDig = 4,
    // the printable octets
    Printable = 8,
}

// The sum of its classes, for each octet.
const CLASSES: [u8; 256] = [
    0, 0, 0, 0, 0, 0, 0, 0, 0, 0, 0, 0, 0, 0, 0, 0, 0, 0, 0, 0, 0, 0, 0, 0, 0, 0, 0, 0, 0, 0, 0, 0,
    10, 11, 8, 11, 11, 11, 11, 11, 10, 10, 11, 11, 10, 11, 10, 11, 15, 15, 15, 15, 15, 15, 15, 15,
    15, 15, 10, 10, 10, 11, 10, 11, 10, 15, 15, 15, 15, 15, 15, 15, 15, 15, 15, 15, 15, 15, 15, 15,
    15, 15, 15, 15, 15, 15, 15, 15, 15, 15, 15, 10, 8, 10, 11, 11, 11, 15, 15, 15, 15, 15, 15, 15,
    15, 15, 15, 15, 15, 15, 15, 15, 15, 15, 15, 15, 15, 15, 15, 15, 15, 15, 15, 11, 11, 11, 11, 0,
    0, 0, 0, 0, 0, 0, 0, 0, 0, 0, 0, 0, 0, 0, 0, 0, 0, 0, 0, 0, 0, 0, 0, 0, 0, 0, 0, 0, 0, 0, 0, 0,
    0, 0, 0, 0, 0, 0, 0, 0, 0, 0, 0, 0, 0, 0, 0, 0, 0, 0, 0, 0, 0, 0, 0, 0, 0, 0, 0, 0, 0, 0, 0, 0,
    0, 0, 0, 0, 0, 0, 0, 0, 0, 0, 0, 0, 0, 0, 0, 0, 0, 0, 0, 0, 0, 0, 0, 0, 0, 0, 0, 0, 0, 0, 0, 0,
    0, 0, 0, 0, 0, 0, 0, 0, 0, 0, 0, 0, 0, 0, 0, 0, 0, 0, 0, 0, 0, 0, 0, 0, 0, 0, 0, 0, 0, 0, 0, 0,
];

// The sum of an octet's classes.
pub fn classes(octet: u8) -> u8
    ensures { result ≡ classes_of octet }
{
    CLASSES[octet as usize]
}

// Whether an octet is in a class.
pub fn is_in(octet: u8, class: Class) -> bool
    ensures { result ≡ member class octet }
{
    classes(octet) & class as u8 != 0
}
