// Power on or off, which the later edition has.
ghost use Rattle.std.specs.Prelude.{◌≡◌};
ghost use Rattle.link_events.specs.Moves.{moved};
ghost use Rattle.link_effects.specs.Whole.{power_frame};

use link_events::{Event, Reply, Turn, reply_with};
use link_state::Link;

// With RPC closed the power is so from now on, and the caller is told; with RPC open nothing changes.
pub fn power_frame(link: Link, on: bool) -> Turn
    ensures { moved result ≡ power_frame link on }
{
    if link.rpc {
        reply_with(link, Reply::Status(1))
    } else {
        Turn {
            event: Event::Powered(on),
            ..reply_with(Link { power: on, ..link }, Reply::Status(0))
        }
    }
}
