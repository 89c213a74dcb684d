// The class of a word: the opcode map, by bits 6 to 2.
ghost use Rattle.std.specs.Prelude.{◌≡◌};
ghost use Rattle.isa.specs.Decode.{class_of};

// The names of the manual's "RISC-V base opcode map".
#[derive(Clone, Copy, PartialEq, Eq)]
pub enum Class {
    Load,
    MiscMem,
    OpImm,
    Auipc,
    OpImm32,
    Store,
    Amo,
    Op,
    Lui,
    Op32,
    Branch,
    Jalr,
    Jal,
    System,
}

// A static: a constant of this type would be built in memory at each reading.
static CLASSES: [Option<Class>; 32] = [
    // from 0
    Some(Class::Load),
    None,
    None,
    Some(Class::MiscMem),
    Some(Class::OpImm),
    Some(Class::Auipc),
    Some(Class::OpImm32),
    None,
    // from 8
    Some(Class::Store),
    None,
    None,
    Some(Class::Amo),
    Some(Class::Op),
    Some(Class::Lui),
    Some(Class::Op32),
    None,
    // from 16
    None,
    None,
    None,
    None,
    None,
    None,
    None,
    None,
    // from 24
    Some(Class::Branch),
    Some(Class::Jalr),
    None,
    Some(Class::Jal),
    Some(Class::System),
    None,
    None,
    None,
];

// None, too, where bits 1 and 0 are not both 1: a compressed word, which this machine does not have.
pub fn class_of(word: u32) -> Option<Class>
    ensures { result ≡ class_of word }
{
    if word % 4 == 3 {
        CLASSES[((word >> 2) % 32) as usize]
    } else {
        None
    }
}
