// The open session: what it says, and whether refusal 5 lets it pass.
#![tactic(auto)]

ghost use Rattle.std.specs.Prelude.{◌≡◌};
ghost use Rattle.loader_sessions.specs.Session.{flash_open, memory_open, announced, accepted, session_good, if_sound};

use esp_begin::{Begin, Lengths};

// The open session: none, flash or memory, with what its BEGIN announced and how many blocks are accepted. A case has these two as they
// are, and no struct of both: `loader_sessions::Session.advanced` and `loader_effects::effect` name them so (`Flash begin 0`).
#[derive(Clone, Copy)]
pub enum Session {
    Closed,
    Flash(Begin, u32),
    Memory(Begin, u32),
}

// Whether a flash session is open.
#[tactic(auto, unfolding(crate::specs::Session::flash_open))]
pub fn flash_open(session: Session) -> bool
    ensures { result ≡ flash_open session }
{
    matches!(session, Session::Flash(_, _))
}

// Whether a memory session is open.
#[tactic(auto, unfolding(crate::specs::Session::memory_open))]
pub fn memory_open(session: Session) -> bool
    ensures { result ≡ memory_open session }
{
    matches!(session, Session::Memory(_, _))
}

// What the open session's BEGIN announced; zeros where none is open.
#[tactic(auto, unfolding(crate::specs::Session::announced))]
pub fn announced_by(session: Session) -> Begin
    ensures { result ≡ announced session }
{
    match session {
        Session::Closed => Begin {
            size: 0,
            count: 0,
            block: 0,
            offset: 0,
        },
        Session::Flash(begin, _) | Session::Memory(begin, _) => begin,
    }
}

// How many blocks of the open session are accepted.
#[tactic(auto, unfolding(crate::specs::Session::accepted))]
pub fn accepted_by(session: Session) -> u32
    ensures { result ≡ accepted session }
{
    match session {
        Session::Closed => 0,
        Session::Flash(_, k) | Session::Memory(_, k) => k,
    }
}

// Whether refusal 5 finds nothing wrong with a session, for the lengths lent.
#[tactic(auto, unfolding(crate::specs::Session::session_good))]
pub fn session_good(lengths: Lengths, session: Session) -> bool
    ensures { result ≡ session_good lengths session }
{
    match session {
        Session::Closed => true,
        Session::Flash(begin, k) => esp_begin::flash_good(lengths, begin) & (k <= begin.count),
        Session::Memory(begin, k) => esp_begin::memory_good(lengths, begin) & (k <= begin.count),
    }
}

// The session as a command finds it: one that refusal 5 would strike counts as none.
#[tactic(auto, unfolding(crate::specs::Session::if_sound))]
pub fn if_sound(lengths: Lengths, session: Session) -> Session
    ensures { result ≡ if_sound lengths session }
{
    if session_good(lengths, session) {
        session
    } else {
        Session::Closed
    }
}
