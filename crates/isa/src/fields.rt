// The fields of a word and the immediates that they make.
ghost use Rattle.std.specs.Prelude.{◌≡◌, ◌<◌};
ghost use Rattle.isa.specs.Fields.{rd_of, rs1_of, rs2_of, funct3_of, funct5_of, funct6_of, funct7_of, low_b, low_j, imm_i, imm_s, imm_b, imm_u, imm_j};

pub fn rd(word: u32) -> usize
    ensures { result ≡ rd_of word }
{
    ((word >> 7) % 32) as usize
}

pub fn rs1(word: u32) -> usize
    ensures { result ≡ rs1_of word }
{
    ((word >> 15) % 32) as usize
}

pub fn rs2(word: u32) -> usize
    ensures { result ≡ rs2_of word }
{
    ((word >> 20) % 32) as usize
}

pub fn funct3(word: u32) -> u32
    ensures { (result ≡ funct3_of word) × (result < 8) }
{
    (word >> 12) % 8
}

pub fn funct5(word: u32) -> u32
    ensures { (result ≡ funct5_of word) × (result < 32) }
{
    word >> 27
}

pub fn funct6(word: u32) -> u32
    ensures { (result ≡ funct6_of word) × (result < 64) }
{
    word >> 26
}

pub fn funct7(word: u32) -> u32
    ensures { (result ≡ funct7_of word) × (result < 128) }
{
    word >> 25
}

pub fn imm_i(word: u32) -> u64
    ensures { result ≡ imm_i word }
{
    word::num::sign_extend(u64::from(word >> 20), 12, 64)
}

pub fn imm_s(word: u32) -> u64
    ensures { result ≡ imm_s word }
{
    word::num::sign_extend(u64::from((word >> 25) * 32 + (word >> 7) % 32), 12, 64)
}

// Bits 11 to 0 of a branch's offset.
fn low_b(word: u32) -> u32
    ensures { (result ≡ low_b word) × (result < 4096) }
{
    (word >> 7) % 2 * 2048 + (word >> 25) % 64 * 32 + (word >> 8) % 16 * 2
}

pub fn imm_b(word: u32) -> u64
    ensures { result ≡ imm_b word }
{
    word::num::sign_extend(u64::from((word >> 31) * 4096 + low_b(word)), 13, 64)
}

pub fn imm_u(word: u32) -> u64
    ensures { result ≡ imm_u word }
{
    word::num::sign_extend(u64::from((word >> 12) * 4096), 32, 64)
}

// Bits 19 to 0 of a jump's offset.
fn low_j(word: u32) -> u32
    ensures { (result ≡ low_j word) × (result < 1048576) }
{
    (word >> 12) % 256 * 4096 + (word >> 20) % 2 * 2048 + (word >> 21) % 1024 * 2
}

pub fn imm_j(word: u32) -> u64
    ensures { result ≡ imm_j word }
{
    word::num::sign_extend(u64::from((word >> 31) * 1048576 + low_j(word)), 21, 64)
}
