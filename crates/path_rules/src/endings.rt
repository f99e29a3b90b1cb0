//! What notes do to one variable, from what their parts do.

ghost use Rattle.std.specs.Prelude.{◌≡◌, ◌||◌};
ghost use Rattle.path_rules.specs.Summaries as spec;

use crate::order::earlier_place;
use crate::summary::{Effect, Endings, Exits, Frame};

fn or(a: bool, b: bool) -> bool
    ensures { result ≡ (a || b) }
{
    a || b
}

pub(crate) fn no_endings() -> Endings
    ensures { result ≡ spec.no_endings }
{
    Endings {
        exits: Exits {
            goes: false,
            leaves: false,
            breaks: false,
            continues: false,
        },
        read: None,
    }
}

/// What notes with these exits do to a variable that they do not name.
pub(crate) fn untouched(exits: Exits) -> Effect
    ensures { result ≡ spec.untouched exits }
{
    Effect {
        unassigned: Endings { exits, read: None },
        assigned: no_endings(),
    }
}

fn either_exits(a: Exits, b: Exits) -> Exits
    ensures { result ≡ spec.either_exits a b }
{
    Exits {
        goes: or(a.goes, b.goes),
        leaves: or(a.leaves, b.leaves),
        breaks: or(a.breaks, b.breaks),
        continues: or(a.continues, b.continues),
    }
}

fn either(a: Endings, b: Endings) -> Endings
    ensures { result ≡ spec.either a b }
{
    Endings {
        exits: either_exits(a.exits, b.exits),
        read: earlier_place(a.read, b.read),
    }
}

fn given(condition: bool, a: Endings) -> Endings
    ensures { result ≡ spec.given condition a }
{
    if condition { a } else { no_endings() }
}

fn halted(a: Endings) -> Endings
    ensures { result ≡ spec.halted a }
{
    Endings {
        exits: Exits {
            goes: false,
            leaves: a.exits.leaves,
            breaks: a.exits.breaks,
            continues: a.exits.continues,
        },
        read: a.read,
    }
}

fn endings_behind(a: Endings, on: bool, e: Effect) -> Endings
    ensures { result ≡ spec.endings_behind a on e }
{
    let from_unassigned = given(a.exits.goes, e.unassigned);
    let from_assigned = given(on, e.assigned);
    either(halted(a), either(from_unassigned, from_assigned))
}

/// The effect of two pieces, one behind the other; `on` says whether any walk goes on behind the first.
pub(crate) fn behind(on: bool, d: Effect, e: Effect) -> Effect
    ensures { result ≡ spec.behind on d e }
{
    Effect {
        unassigned: endings_behind(d.unassigned, on, e),
        assigned: endings_behind(d.assigned, on, e),
    }
}

/// The exits of two pieces, one behind the other.
pub(crate) fn others_behind(a: Exits, b: Exits) -> Exits
    ensures { result ≡ spec.others_behind a b }
{
    behind(a.goes, untouched(a), untouched(b)).unassigned.exits
}

fn arm_endings(passes: bool, a: Endings) -> Endings
    ensures { result ≡ spec.arm_endings passes a }
{
    Endings {
        exits: Exits {
            goes: passes,
            leaves: or(a.exits.goes, a.exits.leaves),
            breaks: a.exits.breaks,
            continues: a.exits.continues,
        },
        read: a.read,
    }
}

fn if_endings(a: Endings) -> Endings
    ensures { result ≡ spec.if_endings a }
{
    Endings {
        exits: Exits {
            goes: or(a.exits.goes, a.exits.leaves),
            leaves: false,
            breaks: a.exits.breaks,
            continues: a.exits.continues,
        },
        read: a.read,
    }
}

fn loop_endings(a: Endings) -> Endings
    ensures { result ≡ spec.loop_endings a }
{
    Endings {
        exits: Exits {
            goes: or(a.exits.leaves, a.exits.breaks),
            leaves: false,
            breaks: false,
            continues: false,
        },
        read: a.read,
    }
}

fn loop_effect(e: Effect) -> Effect
    ensures { result ≡ spec.loop_effect e }
{
    let unassigned = loop_endings(e.unassigned);
    let comes_back = or(e.assigned.exits.goes, e.assigned.exits.continues);
    let later = given(comes_back, unassigned);
    Effect {
        unassigned,
        assigned: either(loop_endings(e.assigned), later),
    }
}

/// The effect of notes in a frame.
pub(crate) fn in_frame(frame: Frame, e: Effect) -> Effect
    ensures { result ≡ spec.in_frame frame e }
{
    match frame {
        Frame::Arm(always) => Effect {
            unassigned: arm_endings(!always, e.unassigned),
            assigned: arm_endings(false, e.assigned),
        },
        Frame::If => Effect {
            unassigned: if_endings(e.unassigned),
            assigned: if_endings(e.assigned),
        },
        Frame::Loop => loop_effect(e),
    }
}

/// The exits of notes in a frame.
pub(crate) fn others_in_frame(frame: Frame, exits: Exits) -> Exits
    ensures { result ≡ spec.others_in_frame frame exits }
{
    in_frame(frame, untouched(exits)).unassigned.exits
}
