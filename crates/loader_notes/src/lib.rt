// What END asks of the caller.
#![tactic(auto)]

ghost use Rattle.std.specs.Prelude.{◌≡◌, cond, min, nat_eq};
ghost use Rattle.fields.specs.Places.{first_word, second_word};
ghost use Rattle.fields.specs.Words.{word};
ghost use Rattle.loader_notes.specs.Notes.{noted, end_word, end_jump};

use fields::{FIRST_WORD, SECOND_WORD};

// What END asks of the caller, to be done once the answer has been sent.
#[derive(Clone, Copy)]
pub enum Note {
    // nothing: no END, or one that failed
    Nothing,
    // reboot
    Reboot,
    // stay in the loader: go on feeding bytes
    Stay,
    // jump to this address
    Jump(u32),
}

// FLASH_END: 0 reboots, 1 stays, as would any other word; 0xC5 lets no other pass.
pub fn flash_note(packet: &[u8]) -> Note
    ensures { noted result ≡ end_word (min (word packet.now first_word) 1) }
{
    if fields::word_at(packet, FIRST_WORD) == 0 {
        return Note::Reboot;
    }
    Note::Stay
}

// MEM_END: 0 jumps to the entry, 1 stays, as would any other word.
pub fn memory_note(packet: &[u8]) -> Note
    ensures { noted result ≡ cond (nat_eq (word packet.now first_word) 0)
        (end_jump 0 (word packet.now second_word)) (end_word 1) }
{
    if fields::word_at(packet, FIRST_WORD) == 0 {
        return Note::Jump(fields::word_at(packet, SECOND_WORD));
    }
    Note::Stay
}
