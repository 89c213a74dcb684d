// What an event does to the reservations of all harts, which are lent and changed in place. Count and settings are
// lent beside them and no state is, since a state is of the crate above; that the count is at most 8 is a clause, as there (refusal 2 is for others).
ghost use Rattle.std.specs.Prelude.{◌≡◌, ◌≤◌};
ghost use Rattle.word.specs.Each.{each};
ghost use Rattle.settings.specs.Settings.{SizeRules};
ghost use Rattle.reserve.specs.Reserve.{broken_of, observe_all_of};
ghost use Rattle.reserve.specs.Harts.{write_notice, break_slot, replaced};

use crate::{Notice, Reservation, Written, breaks};
use settings::Settings;

// Hart h's reservation replaced, if h is below the count.
#[tactic(auto, unfolding(crate::specs::Harts::replaced))]
fn replace(res: &mut [Option<Reservation>; 8], count: usize, h: usize, r: Option<Reservation>)
    requires { count ≤ 8 }
    ensures { res.new ≡ replaced count h r res.old }
{
    if h < count {
        res[h] = r;
    }
}

// Breaks the reservations of the first count harts that the write breaks, and gives a bit for each.
fn break_all(
    res: &mut [Option<Reservation>; 8],
    count: usize,
    settings: Settings,
    w: Written,
) -> u64
    requires { SizeRules settings × (count ≤ 8) }
    ensures res_after { res.new ≡ each (break_slot settings (write_notice w)) count res.old }
    ensures value { result ≡ broken_of settings (write_notice w) count res.old }
{
    let mut broken: u64 = 0;
    // tried as res.iter_mut().take(count).enumerate(): the proof didn't close
    for k in 0..count {
        if breaks(settings, k, w, res[k]) {
            res[k] = None;
            broken += 1 << k;
        }
    }
    broken
}

// What a write of a hart does to the reservations of others, and a bit for each hart whose reservation it broke.
#[tactic(auto, using(crate::proofs::NoticeLaws::write_observed))]
fn hart_write(
    res: &mut [Option<Reservation>; 8],
    count: usize,
    settings: Settings,
    hart: usize,
    addr: u64,
    len: u64,
) -> u64
    requires { SizeRules settings × (count ≤ 8) }
    ensures { record { slots = res.new; broken = result } ≡ observe_all_of settings count (Notice.Write hart addr len) res.old }
{
    let w = Written {
        writer: Some(hart),
        addr,
        len,
    };
    break_all(res, count, settings, w)
}

// What a device write of len bytes at addr does.
#[tactic(auto, using(crate::proofs::NoticeLaws::device_observed))]
pub fn device_write(
    res: &mut [Option<Reservation>; 8],
    count: usize,
    settings: Settings,
    addr: u64,
    len: u64,
) -> u64
    requires { SizeRules settings × (count ≤ 8) }
    ensures { record { slots = res.new; broken = result } ≡ observe_all_of settings count (Notice.DeviceWrite addr len) res.old }
{
    let w = Written {
        writer: None,
        addr,
        len,
    };
    break_all(res, count, settings, w)
}

// What a yield of hart h does, at any size of the set.
#[tactic(auto, using(crate::proofs::NoticeLaws::yield_observed))]
pub fn release(res: &mut [Option<Reservation>; 8], count: usize, h: usize)
    requires { count ≤ 8 }
    ensures { (settings : Settings) → record { slots = res.new; broken = 0 } ≡ observe_all_of settings count (Notice.Yield h) res.old }
{
    replace(res, count, h, None);
}

// What a notice does to the reservations of the first count harts, and a bit for each hart whose reservation it broke. Only writes are
// looked at hart by hart; the others concern one hart or none. A caller that knows the notice calls device_write or release instead, so that
// this function has one caller: then it is compiled in line, and no notice is copied.
pub fn observe(
    res: &mut [Option<Reservation>; 8],
    count: usize,
    settings: Settings,
    n: Notice,
) -> u64
    requires { SizeRules settings × (count ≤ 8) }
    ensures { record { slots = res.new; broken = result } ≡ observe_all_of settings count n res.old }
{
    match n {
        Notice::Quiet => 0,
        Notice::LoadReserved { hart, addr, width } => {
            replace(res, count, hart, Some(Reservation { addr, width }));
            0
        }
        Notice::ScStored { hart, addr, len } => {
            let b = hart_write(res, count, settings, hart, addr, len);
            replace(res, count, hart, None);
            b
        }
        Notice::ScFailed { hart } => {
            replace(res, count, hart, None);
            0
        }
        Notice::Write { hart, addr, len } => hart_write(res, count, settings, hart, addr, len),
        Notice::DeviceWrite { addr, len } => device_write(res, count, settings, addr, len),
        Notice::Yield { hart } => {
            release(res, count, hart);
            0
        }
    }
}
