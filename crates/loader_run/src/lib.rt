// The call that is made with each run of received bytes.
#![tactic(auto)]

ghost use Rattle.loader_run.specs.RunStep.{run_step, FeedsRun};

use loader_act::{Answer, act};
use loader_state::{BufferLengths, Loader, judge};
use slip_unframing::Closing;

// The answer to a run, how many of its bytes were taken, and the record for the next call, whatever the answer. Where a packet was
// closed, the bytes behind `taken` are for the next call.
#[derive(Clone, Copy)]
pub struct RunFed {
    pub taken: usize,
    pub answer: Answer,
    pub loader: Loader,
}

// A run of received bytes, as many as a read brought. It is taken up to and with the byte that closes a packet, or whole where none does.
// The caller lends
// - a packet buffer of at least 4,120 bytes, the same for each call, and does not write to it;
// - an answer buffer of at least LONGEST_ANSWER bytes, which it may use as it likes between calls;
// - flash, of a length that is a multiple of 4,096 up to 4,194,304, and 1 to 16,384 words of memory, the same for each call;
// keeps the record that comes back, does what stands at the answer's case, and hands the rest of the run over with the next call.
// The four buffers are four parameters: the caller uses the answer buffer between calls, so a struct of them would be written anew for each.
pub fn feed_run(
    loader: Loader,
    run: &[u8],
    packet: &mut [u8],
    answer: &mut [u8],
    flash: &mut [u8],
    words: &mut [u32],
) -> RunFed
    ensures { FeedsRun
        (run_step loader run.now packet.old answer.old flash.old words.old)
        result packet.new answer.new flash.new words.new }
{
    let buffers = BufferLengths {
        packet: packet.len(),
        answer: answer.len(),
        flash: flash.len(),
        words: words.len(),
    };
    if let Err(refusal) = judge(loader, buffers) {
        return RunFed {
            taken: 0,
            answer: Answer::Refused(u8::from(refusal)),
            loader,
        };
    }
    let ran = slip_runs::run(loader.line, run, packet);
    let taken = ran.taken;
    let next = Loader {
        line: ran.line,
        ..loader
    };
    match ran.closing {
        Closing::Open => RunFed {
            taken,
            answer: Answer::Taken,
            loader: next,
        },
        Closing::Whole(stored) => {
            let acted = act(next, &packet[..stored], answer, flash, words);
            RunFed {
                taken,
                answer: acted.answer,
                loader: acted.loader,
            }
        }
        Closing::Broken(stored, reason) => RunFed {
            taken,
            answer: Answer::Dropped { stored, reason },
            loader: next,
        },
    }
}
