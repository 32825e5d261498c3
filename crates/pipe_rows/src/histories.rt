//! Random lawful histories of a control. Each answer is compared with what the rules on pipes say of the whole history.

use crate::dice::Dice;
use crate::player::{Call, Player, Told};
use pipe_core::{FlushReply, ReadReply, Wake};

const HISTORIES: u64 = 500;

const MOST_CALLS: usize = 14;
// A question may ask about two calls more than were made.
const ROOM: usize = MOST_CALLS + 2;

const WRITER_ENDS: Call = Call::EndWriter { code: 3 };

const READER_ENDS: Call = Call::EndReader { code: 5 };

// Calls in the order in which they are made.
#[derive(Clone, Copy)]
struct History {
    calls: [Call; ROOM],
    len: usize,
}

impl History {
    fn with(&self, call: Call) -> History {
        let mut longer = *self;
        if self.len < ROOM {
            longer.calls[self.len] = call;
            longer.len = self.len + 1;
        }
        longer
    }

    fn all(&self) -> &[Call] {
        &self.calls[..self.len.min(ROOM)]
    }
}

// The bytes that were committed before the reader completed.
fn total(h: &[Call]) -> u64 {
    let mut total: u64 = 0;
    for call in h {
        match *call {
            Call::Commit { bytes } => total = total.saturating_add(bytes),
            Call::EndReader { .. } => return total,
            _ => {}
        }
    }
    total
}

// How many bytes were consumed, and how far was looked.
fn progress(h: &[Call]) -> (u64, u64) {
    let mut consumed: u64 = 0;
    let mut farthest: u64 = 0;
    for call in h {
        if let Call::Advance { c, e } = *call {
            farthest = farthest.max(consumed.saturating_add(e));
            consumed = consumed.saturating_add(c);
        }
    }
    (consumed, farthest)
}

fn held(h: &[Call]) -> u64 {
    total(h).saturating_sub(progress(h).0)
}

fn unexamined(h: &[Call]) -> u64 {
    total(h).saturating_sub(progress(h).1)
}

fn ended(h: &[Call]) -> Option<u32> {
    h.contains(&WRITER_ENDS).then_some(3)
}

fn gone(h: &[Call]) -> Option<u32> {
    h.contains(&READER_ENDS).then_some(5)
}

fn is_read_canceled(h: &[Call]) -> bool {
    let mut stands = false;
    for call in h {
        match *call {
            Call::CancelRead => stands = true,
            Call::Read { .. } => stands = false,
            _ => {}
        }
    }
    stands
}

fn is_flush_canceled(h: &[Call]) -> bool {
    let mut stands = false;
    for call in h {
        match *call {
            Call::CancelFlush => stands = true,
            Call::Commit { .. } => stands = false,
            _ => {}
        }
    }
    stands
}

fn is_read_ready(h: &[Call], least: u64) -> bool {
    is_read_canceled(h) || ended(h).is_some() || unexamined(h) > 0 && held(h) >= least
}

// The reader's last call, where that is a read: for how many bytes it asked, and what stood before.
fn last_read(h: &[Call]) -> Option<(u64, &[Call])> {
    let mut last = None;
    for end in 0..h.len() {
        match h[end] {
            Call::Read { least } => last = Some((least, &h[..end])),
            Call::Advance { .. } | Call::EndReader { .. } => last = None,
            _ => {}
        }
    }
    last
}

fn lent(h: &[Call]) -> Option<u64> {
    let (least, before) = last_read(h)?;
    is_read_ready(before, least).then_some(held(before))
}

fn awaited(h: &[Call]) -> Option<u64> {
    let (least, before) = last_read(h)?;
    (!is_read_ready(before, least)).then_some(least)
}

fn is_starved(h: &[Call]) -> bool {
    match awaited(h) {
        Some(least) => least > 0 && !is_read_ready(h, least),
        None => false,
    }
}

// The thresholds of a pipe, by which these questions are asked.
#[derive(Clone, Copy)]
struct Thresholds {
    pause: u64,
    resume: u64,
}

impl Thresholds {
    // Whether a pause that began with the call before `begun` has lasted.
    fn has_lasted(self, h: &[Call], begun: usize) -> bool {
        for end in begun..h.len() + 1 {
            let Some(so_far) = h.get(..end) else {
                return false;
            };
            if unexamined(so_far) < self.resume || is_starved(so_far) {
                return false;
            }
        }
        true
    }

    fn is_paused(self, h: &[Call]) -> bool {
        if self.pause == 0 || gone(h).is_some() {
            return false;
        }
        for begin in 0..h.len() {
            let is_commit = matches!(h[begin], Call::Commit { .. });
            let enough = unexamined(&h[..begin + 1]) >= self.pause;
            if is_commit && enough && self.has_lasted(h, begin + 1) {
                return true;
            }
        }
        false
    }

    // Whether the commit that ends this history is answered Ready.
    fn is_flush_ready(self, h: &[Call]) -> bool {
        let Some((_, before)) = h.split_last() else {
            return false;
        };
        is_flush_canceled(before) || gone(before).is_some() || !self.is_paused(h)
    }

    // Whether the writer's last call is a commit that was answered Pending.
    fn writer_waits(self, h: &[Call]) -> bool {
        let mut waits = false;
        for end in 0..h.len() {
            match h[end] {
                Call::Commit { .. } => waits = !self.is_flush_ready(&h[..end + 1]),
                Call::EndWriter { .. } => waits = false,
                _ => {}
            }
        }
        waits
    }

    fn wake(self, before: History, after: History) -> Wake {
        let ask = Call::Commit { bytes: 0 };
        let (h, g) = (before.all(), after.all());
        let reader = match awaited(h) {
            Some(least) => !is_read_ready(h, least) && is_read_ready(g, least),
            None => false,
        };
        let held_before = self.writer_waits(h) && !self.is_flush_ready(before.with(ask).all());
        Wake {
            reader: reader && gone(g).is_none(),
            writer: held_before && self.is_flush_ready(after.with(ask).all()) && ended(g).is_none(),
        }
    }

    // What a call is told behind a history.
    fn told(self, before: History, call: Call) -> Told {
        let after = before.with(call);
        let (h, g) = (before.all(), after.all());
        let wake = self.wake(before, after);
        match call {
            Call::Commit { .. } if self.is_flush_ready(g) => {
                let canceled = is_flush_canceled(h);
                Told::Flushed(
                    FlushReply::Ready {
                        canceled,
                        gone: gone(h),
                    },
                    wake,
                )
            }
            Call::Commit { .. } => {
                let unexamined = unexamined(g);
                Told::Flushed(FlushReply::Pending { unexamined }, wake)
            }
            Call::Read { least } if is_read_ready(h, least) => {
                let canceled = is_read_canceled(h);
                Told::Gave(
                    ReadReply::Ready {
                        canceled,
                        ended: ended(h),
                        len: held(h),
                    },
                    wake,
                )
            }
            Call::Read { .. } => {
                let examined = progress(h).1;
                Told::Gave(
                    ReadReply::Pending {
                        examined,
                        held: held(h),
                    },
                    wake,
                )
            }
            _ => Told::Woke(wake),
        }
    }
}

fn is_lawful(h: &[Call], call: Call) -> bool {
    match call {
        Call::Commit { .. } | Call::EndWriter { .. } => ended(h).is_none(),
        Call::Read { .. } => gone(h).is_none() && lent(h).is_none(),
        Call::Advance { c, e } => match lent(h) {
            Some(len) => gone(h).is_none() && c <= e && e <= len,
            None => false,
        },
        Call::EndReader { .. } => gone(h).is_none(),
        Call::CancelRead | Call::CancelFlush => true,
    }
}

fn random_call(dice: &mut Dice) -> Call {
    match dice.below(20) {
        0..=6 => Call::Commit {
            bytes: dice.below(8),
        },
        7..=11 => Call::Read {
            least: dice.below(10),
        },
        12..=15 => {
            let e = dice.below(12);
            Call::Advance {
                c: dice.below(12).min(e),
                e,
            }
        }
        16 => Call::CancelRead,
        17 => Call::CancelFlush,
        18 => WRITER_ENDS,
        _ => READER_ENDS,
    }
}

// The first call of a random history that is not answered as the rules say, if there is one.
fn first_wrong(dice: &mut Dice) -> Option<Call> {
    let (mut player, pause, resume) = match dice.below(5) {
        0 => (Player::new(0, 1), 0, 1),
        1 => (Player::new(1, 1), 1, 1),
        2 => (Player::new(5, 1), 5, 1),
        3 => (Player::new(5, 5), 5, 5),
        _ => (Player::new(8, 4), 8, 4),
    };
    let rules = Thresholds { pause, resume };
    let mut history = History {
        calls: [Call::CancelRead; ROOM],
        len: 0,
    };
    for _ in 0..MOST_CALLS {
        let call = random_call(dice);
        let told = player.make(call);
        if !is_lawful(history.all(), call) {
            if told.is_some() {
                return Some(call);
            }
            continue;
        }
        if told != Some(rules.told(history, call)) {
            return Some(call);
        }
        history = history.with(call);
    }
    None
}

#[test]
fn a_control_answers_random_histories_by_the_rules(rt: HostRuntime) {
    let mut dice = Dice::new(7);
    for _ in 0..HISTORIES {
        assert!(rt; first_wrong(&mut dice).is_none());
    }
}
