// The chip's end of the ESP serial protocol: all that its caller needs, and the call with one byte.
#![tactic(auto)]

ghost use Rattle.loader.specs.Step.{step, Feeds};

pub use loader_act::{Answer, Fed};
pub use loader_answers::LONGEST_ANSWER;
pub use loader_notes::Note;
pub use loader_run::{RunFed, feed_run};
pub use loader_sessions::Session;
pub use loader_state::{Loader, new};
pub use slip_unframing::Reason;

// One received byte: a run of one. What is lent, each by itself, and what to do stand at `feed_run`.
pub fn feed(
    loader: Loader,
    byte: u8,
    packet: &mut [u8],
    answer: &mut [u8],
    flash: &mut [u8],
    words: &mut [u32],
) -> Fed
    ensures { Feeds
        (step loader byte packet.old answer.old flash.old words.old)
        result packet.new answer.new flash.new words.new }
{
    let fed = feed_run(loader, &[byte], packet, answer, flash, words);
    Fed {
        answer: fed.answer,
        loader: fed.loader,
    }
}
