// Times on a millisecond count that runs over to zero.
ghost use Rattle.std.specs.Prelude.{◌≡◌};
ghost use Rattle.link_state.specs.Clock.{elapsed, silence, still_dead};

// So many milliseconds without activity are silence; so long after the baud frame bytes are ignored.
const SILENCE: u32 = 250;

const DEAD_TIME: u32 = 25;

// The time from one tick to a later one.
pub fn since(last: u32, tick: u32) -> u32
    ensures { result ≡ elapsed last tick }
{
    tick.wrapping_sub(last)
}

// Whether it is too long since the last activity.
pub fn silent(last: u32, tick: u32) -> bool
    ensures { result ≡ silence last tick }
{
    SILENCE <= since(last, tick)
}

// Whether dead time that runs is not over yet.
pub fn still_dead(dead: bool, last: u32, tick: u32) -> bool
    ensures { result ≡ still_dead dead last tick }
{
    dead && since(last, tick) < DEAD_TIME
}
