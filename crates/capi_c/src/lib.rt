// The exports of the static library: each is the function of `capi` with its name, and states its clauses. None has a precondition.
// In two crates: the crate of an export is no library of others, and `capi_means` states theorems of `capi`.
#![tactic(auto)]

ghost use Rattle.std.specs.Prelude.{◌≡◌};
ghost use Rattle.settings.specs.Settings.{defaults, of_kind};
ghost use Rattle.events.specs.declared.Event.TheVariants.{Step, Device, Yield};
ghost use Rattle.capi.specs.Answers.{Reported, loop_answer};
ghost use Rattle.capi.specs.Events.{PerformedOn, RanOn};
ghost use Rattle.capi.specs.Replay.{ReplayedOn};
ghost use Rattle.capi.specs.Boards.{SettingsRead, SettingsWritten};

// The text of any bytes.
#[unsafe(no_mangle)]
pub extern "C" fn floecavern_report(file: &[u8], out: &mut [u8]) -> u64
    ensures { Reported file.now out.old out.new result }
{
    capi::floecavern_report(file, out)
}

// Whether words are a retry loop that is accepted.
#[unsafe(no_mangle)]
pub extern "C" fn floecavern_check_loop(words: &[u8]) -> u64
    ensures { result ≡ loop_answer defaults words.now }
{
    capi::floecavern_check_loop(words)
}

// The same under a version of A, for a kind of core.
#[unsafe(no_mangle)]
pub extern "C" fn floecavern_check_loop_for(version: u64, kind: u64, words: &[u8]) -> u64
    ensures { result ≡ loop_answer (of_kind version kind) words.now }
{
    capi::floecavern_check_loop_for(version, kind, words)
}

// A step of a hart.
#[unsafe(no_mangle)]
pub extern "C" fn floecavern_step(
    state: &mut [u8],
    base: u64,
    mem: &mut [u8],
    hart: usize,
    value: &mut [u8],
) -> u64
    ensures { PerformedOn (Step hart) base state.old mem.old value.old
        result state.new mem.new value.new }
{
    capi::steps::floecavern_step(state, base, mem, hart, value)
}

// A device write of the size lowest bytes of data, the first byte lowest.
#[unsafe(no_mangle)]
pub extern "C" fn floecavern_device_write(
    state: &mut [u8],
    base: u64,
    mem: &mut [u8],
    addr: u64,
    size: usize,
    data: u64,
    value: &mut [u8],
) -> u64
    ensures { PerformedOn (Device addr size «data») base state.old mem.old value.old
        result state.new mem.new value.new }
{
    capi::steps::floecavern_device_write(state, base, mem, addr, size, data, value)
}

// A yield: drops a hart's reservation.
#[unsafe(no_mangle)]
pub extern "C" fn floecavern_yield(
    state: &mut [u8],
    base: u64,
    mem: &mut [u8],
    hart: usize,
    value: &mut [u8],
) -> u64
    ensures { PerformedOn (Yield hart) base state.old mem.old value.old
        result state.new mem.new value.new }
{
    capi::steps::floecavern_yield(state, base, mem, hart, value)
}

// A run of at most budget events of an events body.
#[unsafe(no_mangle)]
pub extern "C" fn floecavern_run(
    state: &mut [u8],
    base: u64,
    mem: &mut [u8],
    events: &[u8],
    budget: usize,
    ran: &mut [u8],
) -> u64
    ensures { RanOn events.now budget base state.old mem.old ran.old
        result state.new mem.new ran.new }
{
    capi::steps::floecavern_run(state, base, mem, events, budget, ran)
}

// A log of rows of 48 bytes, up to the first row that does not agree with the model.
#[unsafe(no_mangle)]
pub extern "C" fn floecavern_replay(
    state: &mut [u8],
    base: u64,
    mem: &mut [u8],
    log: &[u8],
    told: &mut [u8],
) -> u64
    ensures { ReplayedOn log.now base state.old mem.old told.old
        result state.new mem.new told.new }
{
    capi::replay::floecavern_replay(state, base, mem, log, told)
}

// A settings file read: sixteen boards, those that it has and zeros behind them.
#[unsafe(no_mangle)]
pub extern "C" fn floecavern_read_settings(file: &[u8], boards: &mut [u8], told: &mut [u8]) -> u64
    ensures { SettingsRead file.now boards.old told.old result boards.new told.new }
{
    capi::settings_files::floecavern_read_settings(file, boards, told)
}

// The settings file of boards, 24 bytes each.
#[unsafe(no_mangle)]
pub extern "C" fn floecavern_write_settings(boards: &[u8], out: &mut [u8], told: &mut [u8]) -> u64
    ensures { SettingsWritten boards.now out.old told.old result out.new told.new }
{
    capi::settings_files::floecavern_write_settings(boards, out, told)
}
