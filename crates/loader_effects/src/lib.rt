// A read packet's command: its error, or what it does.
#![tactic(auto)]

ghost use Rattle.std.specs.Prelude.{◌≡◌, true, ◌+◌, ◌^◌, ◌<◌, length, take, drop};
ghost use Rattle.lists.specs.Checks.{number_by};
ghost use Rattle.fields.specs.Places.{first_word, second_word};
ghost use Rattle.fields.specs.Words.{word};
ghost use Rattle.digest.specs.Digest.{md5_of};
ghost use Rattle.loader_answers.specs.Answer.{plain};
ghost use Rattle.esp_commands.specs.Header.{command};
ghost use Rattle.loader_sessions.specs.Session.{accepted, advanced, session_good};
ghost use Rattle.loader_errors.specs.Codes.{error_byte};
ghost use Rattle.loader_errors.specs.Errors.{error_of};
ghost use Rattle.loader_effects.specs.Handle.{carried_out, obeyed, Does};

use digest::DigestBytes;
use esp_begin::Lengths;
use esp_commands::Command;
use fields::{FIRST_WORD, SECOND_WORD};
use loader_errors::CommandError;
use loader_notes::Note;
use loader_sessions::Session;

// What a command comes to, flash and words apart: its error, the session and attach word after it, the value of its answer and the digest
// that stands there before the status bytes, and what the caller is told. The error is the answer's byte, 0 on success, as
// `Does.reply` has it.
#[derive(Clone, Copy)]
pub struct Done {
    pub error: u8,
    pub session: Session,
    pub attach: u32,
    pub value: u32,
    pub body: Option<DigestBytes>,
    pub note: Note,
}

// A result with no value, no digest and nothing told.
fn leaving(judged: Result<(), CommandError>, session: Session, attach: u32) -> Done
    ensures { result ≡ record { error = number_by error_byte judged; session = session; attach = attach; value = 0; body = plain; note = Note.Nothing } }
{
    Done {
        error: match judged {
            Ok(()) => 0,
            Err(error) => u8::from(error),
        },
        session,
        attach,
        value: 0,
        body: None,
        note: Note::Nothing,
    }
}

// The session with one block more accepted.
#[tactic(auto, unfolding(loader_sessions::specs::Session::accepted, loader_sessions::specs::Session::advanced))]
fn advanced_by(session: Session) -> Session
    requires { accepted session + 1 < 2 ^ 32 }
    ensures { result ≡ advanced session }
{
    match session {
        Session::Closed => Session::Closed,
        Session::Flash(begin, k) => Session::Flash(begin, k + 1),
        Session::Memory(begin, k) => Session::Memory(begin, k + 1),
    }
}

// SPI_FLASH_MD5: the digest of the bytes named.
fn digest_of(packet: &[u8], flash: &[u8]) -> DigestBytes
    ensures { result ≡ md5_of (take (word packet.now second_word) (drop (word packet.now first_word) flash.now)) }
{
    let address = fields::word_at(packet, FIRST_WORD) as usize;
    let size = fields::word_at(packet, SECOND_WORD) as usize;
    digest::md5(flash, address, size)
}

// A command whose error is 0, carried out. Of the core, flash and words are lent, so they stand beside session and attach word.
fn carry_out(
    packet: &[u8],
    session: Session,
    attach: u32,
    flash: &mut [u8],
    words: &mut [u32],
) -> Done
    requires { (error_of (record { flash = length flash.old; words = length words.old }) session packet.now ≡ 0)
        × (session_good (record { flash = length flash.old; words = length words.old }) session ≡ true) }
    ensures { Does
        (carried_out (record { session = session; attach = attach; flash = flash.old; words = words.old })
        packet.now)
        (command packet.now) result flash.new words.new }
{
    let before = leaving(Ok(()), session, attach);
    let Ok(command) = Command::try_from(esp_commands::command_of(packet)) else {
        // No other command has the error 0.
        return before;
    };
    match command {
        Command::FlashBegin => Done {
            session: Session::Flash(esp_begin::begin_of(packet), 0),
            ..before
        },
        Command::FlashData => {
            loader_blocks::write_flash(
                loader_sessions::announced_by(session),
                loader_sessions::accepted_by(session),
                packet,
                flash,
            );
            Done {
                session: advanced_by(session),
                ..before
            }
        }
        Command::FlashEnd => Done {
            session: Session::Closed,
            note: loader_notes::flash_note(packet),
            ..before
        },
        Command::MemBegin => Done {
            session: Session::Memory(esp_begin::begin_of(packet), 0),
            ..before
        },
        Command::MemEnd => Done {
            session: Session::Closed,
            note: loader_notes::memory_note(packet),
            ..before
        },
        Command::MemData => {
            loader_blocks::write_words(
                loader_sessions::announced_by(session),
                loader_sessions::accepted_by(session),
                packet,
                words,
            );
            Done {
                session: advanced_by(session),
                ..before
            }
        }
        Command::Sync => before,
        Command::WriteReg => {
            loader_registers::write(packet, words);
            before
        }
        Command::ReadReg => Done {
            value: loader_registers::read(packet, words),
            ..before
        },
        Command::SpiAttach => Done {
            attach: fields::word_at(packet, FIRST_WORD),
            ..before
        },
        Command::SpiFlashMd5 => Done {
            body: Some(digest_of(packet, flash)),
            ..before
        },
    }
}

// A read packet's command, carried out where its error is 0; where it fails, session and attach word come back as they were. A
// session that refusal 5 would strike counts as none. The parameters are those of `carry_out`.
pub fn obey(
    packet: &[u8],
    session: Session,
    attach: u32,
    flash: &mut [u8],
    words: &mut [u32],
) -> Done
    ensures { Does
        (obeyed (record { session = session; attach = attach; flash = flash.old; words = words.old })
        packet.now)
        (command packet.now) result flash.new words.new }
{
    let lengths = Lengths {
        flash: flash.len(),
        words: words.len(),
    };
    let open = loader_sessions::if_sound(lengths, session);
    match loader_errors::error_of(lengths, open, packet) {
        Ok(()) => carry_out(packet, open, attach, flash, words),
        failed => leaving(failed, session, attach),
    }
}
