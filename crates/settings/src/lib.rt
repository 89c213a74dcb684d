// What a machine is set to. The settings are numbers, since a state can be given with any: those that are not allowed are refused.
#![tactic(auto)]

ghost use Rattle.std.specs.Prelude.{◌≡◌, ◌%◌, ◌<◌};
ghost use Rattle.settings.specs.Settings.{PowerOfTwo, defaults, of_kind, xlen_of, size_ok, granule_of, version_ok, kind_ok, reading_ok};
ghost use Rattle.settings.specs.Settings.{devices_break, jalr_permitted, misaligned_ok, lr_cause, amo_cause};
ghost use Rattle.settings.specs.Boards.{default_board, on_board, board_ok};

// size is the number of bytes of a reservation's set, the same for all harts; version that of A, 20 for 2.0 and 21 for 2.1; kind that of the core, 0 for
// registers of 64 bits and 1 for registers of 32; misaligned is 0 where a misaligned LR, SC, AMO or AMOCAS gives cause 4 or 6, and 1 where it gives 5 or 7.
// SizeRules stands as a clause and in no type, since a state is given with any settings.
#[derive(Clone, Copy, PartialEq, Eq)]
pub struct Settings {
    pub size: u64,
    pub version: u64,
    pub kind: u64,
    pub misaligned: u64,
}

// What a settings file says of a board, as numbers too: board_ok refuses those that are not allowed. The kind isn't in it: every case says its own.
// BoardRules stands as a clause and in no type, since C and files give any numbers.
#[derive(Clone, Copy, PartialEq, Eq)]
pub struct Board {
    pub size: u64,
    pub version: u64,
    pub misaligned: u64,
}

// The settings of a case file of the 64-bit core where no board is given, and of a state that is not set otherwise.
pub fn defaults() -> Settings
    ensures { result ≡ defaults }
{
    of_kind(21, 0)
}

// The same with another version of A and another kind.
pub fn of_kind(version: u64, kind: u64) -> Settings
    ensures { result ≡ of_kind version kind }
{
    let board = default_board();
    on_board(Board { version, ..board }, kind)
}

// What a case runs under that is given without a board.
pub fn default_board() -> Board
    ensures { result ≡ default_board }
{
    Board {
        size: 64,
        version: 21,
        misaligned: 0,
    }
}

// The settings of a case of this kind on this board.
pub fn on_board(board: Board, kind: u64) -> Settings
    ensures { result ≡ on_board board kind }
{
    Settings {
        size: board.size,
        version: board.version,
        kind,
        misaligned: board.misaligned,
    }
}

// The bits of registers, the pc and addresses.
#[tactic(auto, unfolding(crate::specs::Settings::xlen_of))]
pub fn xlen(settings: Settings) -> u32
    ensures { result ≡ xlen_of settings }
{
    if settings.kind == 1 { 32 } else { 64 }
}

// The remainder by a power of two. A mask and no division, since the set is looked for at every write.
pub fn remainder(n: u64, power: u64) -> u64
    requires { PowerOfTwo power }
    ensures { result ≡ n % power }
{
    n & (power - 1)
}

// Whether the set's size is allowed (refusal 1): a power of two has no bit in common with the number before it. Tried as is_power_of_two: the proof
// didn't close, as it counts the bits that are set, and no lemma says what that count has to do with the rule.
#[tactic(auto, unfolding(crate::specs::Settings::size_ok))]
pub fn size_ok(settings: Settings) -> bool
    ensures { result ≡ size_ok settings }
{
    let size = settings.size;
    8 <= size && size <= 4096 && size & (size - 1) == 0
}

// What memory's base and length are multiples of.
pub fn granule(settings: Settings) -> u64
    ensures { result ≡ granule_of settings }
{
    settings.size.max(64)
}

// Whether the version of A is one that is kept (refusal 2).
#[tactic(auto, unfolding(crate::specs::Settings::version_ok))]
fn version_ok(settings: Settings) -> bool
    ensures { result ≡ version_ok settings }
{
    let version = settings.version;
    version == 20 || version == 21
}

// Whether the kind is one that there is (refusal 2).
#[tactic(auto, unfolding(crate::specs::Settings::kind_ok))]
fn kind_ok(settings: Settings) -> bool
    ensures { result ≡ kind_ok settings }
{
    settings.kind == 0 || settings.kind == 1
}

// Both.
#[tactic(auto, unfolding(crate::specs::Settings::reading_ok))]
pub fn reading_ok(settings: Settings) -> bool
    ensures { result ≡ reading_ok settings }
{
    version_ok(settings) && kind_ok(settings)
}

// Whether the causes of a misaligned LR, SC, AMO or AMOCAS are ones that there are (refusal 2).
#[tactic(auto, unfolding(crate::specs::Settings::misaligned_ok))]
pub fn misaligned_ok(settings: Settings) -> bool
    ensures { result ≡ misaligned_ok settings }
{
    settings.misaligned == 0 || settings.misaligned == 1
}

// Whether a settings file may have the board (refusal 23 there).
#[tactic(auto, unfolding(crate::specs::Boards::board_ok))]
pub fn board_ok(board: Board) -> bool
    ensures { result ≡ board_ok board }
{
    let settings = on_board(board, 0);
    size_ok(settings) && version_ok(settings) && misaligned_ok(settings)
}

// The cause of a misaligned LR.
#[tactic(auto, unfolding(crate::specs::Settings::lr_cause))]
pub fn lr_cause(misaligned: u64) -> u64
    ensures { (result ≡ lr_cause misaligned) × (0 < result) }
{
    if misaligned == 1 { 5 } else { 4 }
}

// The cause of a misaligned SC, AMO or AMOCAS.
#[tactic(auto, unfolding(crate::specs::Settings::amo_cause))]
pub fn amo_cause(misaligned: u64) -> u64
    ensures { (result ≡ amo_cause misaligned) × (0 < result) }
{
    if misaligned == 1 { 7 } else { 6 }
}

// Whether a device write breaks reservations: A 2.0 speaks only of harts.
pub fn devices_break(settings: Settings) -> bool
    ensures { result ≡ devices_break settings }
{
    settings.version == 21
}

// Whether a retry loop may have a JALR: A 2.0 doesn't exclude it.
pub fn jalr_permitted(settings: Settings) -> bool
    ensures { result ≡ jalr_permitted settings }
{
    settings.version == 20
}
