// Every theorem, a function each: the contract is the theorem, and a theorem without a proof is an unproved function.
#![tactic(auto)]

ghost use Rattle.loader_claims.specs.ChangesNothing.{RefusedChangesNothing, RunRefusedChangesNothing, EmptyRunChangesNothing};
ghost use Rattle.loader_claims.specs.ChangesNothing.{FailedChangesNothing, RunFailedChangesNothing};
ghost use Rattle.slip_packets.specs.Theorems.{RoundTrip, FrameComesBack, CutOfFrame, StepsAreCut};
ghost use Rattle.slip_packets.specs.Theorems.{FirstDecides, DroppedAsBefore};
ghost use Rattle.slip_runs.specs.Theorems.{TakesMost, TakesSome, GoesOn, StaysClosed, RunComesBack};
ghost use Rattle.fields.specs.Theorems.{WordBack};
ghost use Rattle.pins.specs.Theorems.{PackedSays, PackedIsTaken};
ghost use Rattle.esp_attach.specs.Theorems.{EveryPair};
ghost use Rattle.esp_parameters.specs.Theorems.{RegisterHasPlace};
ghost use Rattle.loader_errors.specs.Attach.{PackerAgrees};
ghost use Rattle.esp_begin.specs.Count.{CountIsDividedUp, NoneOfBlock0};
ghost use Rattle.digest.specs.Suite.{Rfc1321Suite};
ghost use Rattle.digest.specs.Theorems.{PaddedAsSaid, SixteenBytes};
ghost use Rattle.loader_claims.specs.Digest.{DigestAnswered, RunDigestAnswered, LoadIsDigested};
ghost use Rattle.loader_history.specs.Theorems.{PacketsKeep, PacketsLoad};
ghost use Rattle.grammar.specs.Theorems.{OneChoice, NothingBetween, GoodPackets, DataEndToEnd, LoadedIsLaid, DigestIsFiller};
ghost use Rattle.grammar.specs.Witness.{WorkedFits};
ghost use Rattle.loader_claims.specs.CallHistory.{CallsAreHistory};
ghost use Rattle.loader_claims.specs.RunHistory.{RunsAreHistory};
ghost use Rattle.loader_claims.specs.Demand3.{Demand3};
ghost use Rattle.loader_claims.specs.Demand3Runs.{Demand3Runs};
ghost use Rattle.loader_claims.specs.Reasons.{ReasonsTold, RunReasonsTold};
ghost use Rattle.loader_claims.specs.RunsAreBytes.{RunsAreBytes};
ghost use Rattle.loader_claims.specs.HoweverCut.{HoweverCut};
ghost use Rattle.loader_claims.specs.Arrives.{PacketArrives, FrameArrives};
ghost use Rattle.loader_claims.specs.RunArrives.{RunArrives};
ghost use Rattle.loader_claims.specs.WorkedLoad.{WorkedLoad};
ghost use Rattle.sender.specs.Theorems.{FrameFits, NumbersAreWords, FileIsWhole, EmptyImage};
ghost use Rattle.sender_claims.specs.Reads.{SenderWrites, SenderIsRead};
ghost use Rattle.sender_claims.specs.Judged.{JudgedAsLoader};
ghost use Rattle.sender_claims.specs.Succeeds.{EveryPacketSucceeds};
ghost use Rattle.sender_claims.specs.Stands.{ImageStands};
ghost use Rattle.sender_claims.specs.Worked.{WorkedSend};
ghost use Rattle.link_claims.specs.Sound.{NeverRefused, SoundStays};
ghost use Rattle.link_claims.specs.Refusals.{LinkRefusedChangesNothing, SoundAfterChecks};
ghost use Rattle.link_claims.specs.Errors.{ErrorsDetected};
ghost use Rattle.link_claims.specs.Failures.{LinkFailedChangesNothing};
ghost use Rattle.link_claims.specs.Frames.{StartsAre};
ghost use Rattle.link_claims.specs.Reading.{ReadingIs};
ghost use Rattle.link_claims.specs.Own.{ReadsOwn};
ghost use Rattle.link_claims.specs.Decides.{Decides};
ghost use Rattle.link_claims.specs.Tells.{TellsOnly};
ghost use Rattle.link_claims.specs.Silence.{SilenceCountsFrames};
ghost use Rattle.link_claims.specs.DeadTime.{DeadSinceBaud};
ghost use Rattle.link_claims.specs.Delivers.{Delivers};
ghost use Rattle.link_claims.specs.Worked.{WorkedProbe};
ghost use Rattle.link_claims.specs.Editions.{OpeningIs, EditionJudged};
ghost use Rattle.link_claims.specs.Same.{SameAnswers};
ghost use Rattle.link_claims.specs.Power.{PowerIs};
ghost use Rattle.link_claims.specs.WorkedPower.{WorkedPower};
ghost use Rattle.cases.specs.Cases.{Starred};
ghost use Rattle.cases.specs.Digests.{DigestCases};
ghost use Rattle.cases.specs.Pins.{PinCases};
ghost use Rattle.cases.specs.Example.{Example};

// ---- Demand 1: a bad call and a bad command change nothing.

// A call of the loader that has a number is refused with it, and no other is; its record and every buffer come back as they were.
pub fn refused_changes_nothing()
    ensures { RefusedChangesNothing }
{}

// The same of a call with a run, which then takes no byte.
pub fn run_refused_changes_nothing()
    ensures { RunRefusedChangesNothing }
{}

// An empty run that is let pass takes none, closes nothing and changes nothing.
pub fn empty_run_changes_nothing()
    ensures { EmptyRunChangesNothing }
{}

// A call that closes a packet whose command fails answers it with its error, and one that drops a packet tells why; no other call tells
// either, and session, attach word, flash and words stay.
pub fn failed_changes_nothing()
    ensures { FailedChangesNothing }
{}

// The same of a call with a run.
pub fn run_failed_changes_nothing()
    ensures { RunFailedChangesNothing }
{}

// ---- Demand 2: reading and writing.

// A packet of 1 to 4,120 bytes, framed and then fed to the byte step, comes back the same.
pub fn round_trip()
    ensures { RoundTrip }
{}

// The framing routine refuses no such packet whose framed length fits, and what it leaves in its buffer comes back the same.
pub fn frame_comes_back()
    ensures { FrameComesBack }
{}

// The same by cutting: a framed packet is one stretch that stands for that packet.
pub fn cut_of_frame()
    ensures { CutOfFrame }
{}

// A framed packet at the front of a run comes back the same: the run is taken up to the frame's end.
pub fn run_comes_back()
    ensures { RunComesBack }
{}

// For every list of bytes the byte step closes the packets of the cut, each with its contents or why it has none, and its count.
pub fn steps_are_cut()
    ensures { StepsAreCut }
{}

// A framed packet, fed to the loader call by call, is that packet handled: every call before its last takes its byte, and the last
// tells, answers and leaves what `handle` says.
pub fn packet_arrives()
    ensures { PacketArrives }
{}

// The same of the bytes that `frame` wrote into its buffer.
pub fn frame_arrives()
    ensures { FrameArrives }
{}

// A run that begins with a framed packet, handed to the loader at once, is taken up to the frame's end and is that packet handled.
pub fn run_arrives()
    ensures { RunArrives }
{}

// An address that READ_REG and WRITE_REG let pass has a place among the words.
pub fn register_has_place()
    ensures { RegisterHasPlace }
{}

// A word's four bytes, least first, are read back as the word.
pub fn word_back()
    ensures { WordBack }
{}

// SPI_ATTACH takes every word that the packer of pins makes, and its fields say those pins.
pub fn packed_says()
    ensures { PackedSays }
{}

// Two of five pins, or fields, are equal exactly where two different lines have the same: the ten pairs are every pair.
pub fn every_pair()
    ensures { EveryPair }
{}

// The packer's words are exactly the words other than 0 and 1 that SPI_ATTACH takes, each from one choice of pins only.
pub fn packed_is_taken()
    ensures { PackedIsTaken }
{}

// The loader and the packer agree: SPI_ATTACH accepts words 0 and 1, accepts a word from 2 on exactly where the packer makes it, and
// gives 0xC7 to the word of pins that fields can say exactly where the packer gives them 17.
pub fn packer_agrees()
    ensures { PackerAgrees }
{}

// The test of a BEGIN's block count, n*b from S up to less than S + b, says n = S/b rounded up.
pub fn count_is_divided_up()
    ensures { CountIsDividedUp }
{}

// With b = 0 it holds of no count.
pub fn none_of_block_0()
    ensures { NoneOfBlock0 }
{}

// ---- Runs: a whole read is fed as its bytes are.

// A run takes no more than there is.
pub fn takes_most()
    ensures { TakesMost }
{}

// Of a run that is not empty at least one byte is taken.
pub fn takes_some()
    ensures { TakesSome }
{}

// A run that closes nothing is taken whole, and what follows goes on from where it left.
pub fn goes_on()
    ensures { GoesOn }
{}

// A run that closes a packet is not changed by what follows it.
pub fn stays_closed()
    ensures { StaysClosed }
{}

// From every record and all buffers, a list of run calls is the byte calls that feed what was taken: what they leave, and each call that
// closes a packet.
pub fn runs_are_bytes()
    ensures { RunsAreBytes }
{}

// However a stream is cut into runs, each handed over again until it is taken, it is fed as byte by byte; two ways of cutting agree.
pub fn however_cut()
    ensures { HoweverCut }
{}

// ---- Reasons: why a packet is dropped.

// Of a bad escape, an escape cut by C0 and a 4,121st byte the first in the stream decides, whatever follows it; where there is none, a
// packet of fewer than 8 bytes is too short, and one of 8 and more is judged by its direction. One of these decides every stretch.
pub fn first_decides()
    ensures { FirstDecides }
{}

// With the reasons forgotten, the packets of every line are those of document 01 alone: what is dropped has not changed.
pub fn dropped_as_before()
    ensures { DroppedAsBefore }
{}

// Over every list of byte calls, a call that closes a packet tells a reason exactly where the cut drops that packet, and tells that one.
pub fn reasons_told()
    ensures { ReasonsTold }
{}

// The same of run calls.
pub fn run_reasons_told()
    ensures { RunReasonsTold }
{}

// ---- The digest command.

// The definition of MD5 gives the digests of RFC 1321's test suite, all seven.
pub fn rfc1321_suite()
    ensures { Rfc1321Suite }
{}

// Every message is padded as the RFC says of it: to 56 bytes and a multiple of 64 before the length, to whole blocks behind it.
pub fn padded_as_said()
    ensures { PaddedAsSaid }
{}

// Every digest has 16 bytes.
pub fn sixteen_bytes()
    ensures { SixteenBytes }
{}

// A call that closes a good SPI_FLASH_MD5, whatever session is open, answers it with the digest of the bytes named, and session, attach
// word, flash and words stay; every other is answered with 0xC0 or 0xC5 and no digest, and they stay too.
pub fn digest_answered()
    ensures { DigestAnswered }
{}

// The same of a call with a run.
pub fn run_digest_answered()
    ensures { RunDigestAnswered }
{}

// After a load SPI_FLASH_MD5 with the offset and size of its BEGIN keeps the rule, and its digest is that of the data that was announced.
pub fn load_is_digested()
    ensures { LoadIsDigested }
{}

// SPI_FLASH_MD5, good or not, is filler in the grammar of demand 3.
pub fn digest_is_filler()
    ensures { DigestIsFiller }
{}

// ---- Demand 3: FLASH_END succeeds exactly where the packets so far fit the grammar, and flash is then as announced.

// From a session that refusal 5 lets pass, no packet changes the length of flash or words, leaves a session that refusal 5 would
// strike, or makes a good attach word bad.
pub fn packets_keep()
    ensures { PacketsKeep }
{}

// The half over packets: what holds of every list of packets, handled one after the other.
pub fn packets_load()
    ensures { PacketsLoad }
{}

// The half over calls: the run calls that close a packet are the packets of the line that was taken, handled one after the other.
pub fn runs_are_history()
    ensures { RunsAreHistory }
{}

// The same of byte calls.
pub fn calls_are_history()
    ensures { CallsAreHistory }
{}

// The whole, over every packet buffer, flash, memory and list of run calls.
pub fn demand_3_runs()
    ensures { Demand3Runs }
{}

// The letter's own form, over every list of byte calls.
pub fn demand_3()
    ensures { Demand3 }
{}

// The grammar by itself: no two choices of the same packets fit.
pub fn one_choice()
    ensures { OneChoice }
{}

// Behind the BEGIN of a choice that fits no good BEGIN of either kind comes, and its END is the first behind the last block.
pub fn nothing_between()
    ensures { NothingBetween }
{}

// What the grammar asks of a good BEGIN, block or END, by the places and numbers of document 01; a dropped packet is none of these.
pub fn good_packets()
    ensures { GoodPackets }
{}

// The data of a load are what its blocks carry, end to end in the order of their places.
pub fn data_end_to_end()
    ensures { DataEndToEnd }
{}

// Flash after a load is flash before it with the announced bytes laid at the offset, and 0xFF behind them up to a whole sector.
pub fn loaded_is_laid()
    ensures { LoadedIsLaid }
{}

// The grammar is not empty: a BEGIN, one block and an END, in bytes, fit it.
pub fn worked_fits()
    ensures { WorkedFits }
{}

// Fed to a fresh loader, those bytes end with the success of FLASH_END, and flash holds the block's byte, with 0xFF behind it.
pub fn worked_load()
    ensures { WorkedLoad }
{}

// ---- The sending end: what it writes our loader takes, and the image stands in flash.

// What a call of the sender tells stands at the front of its buffer: the packet with its number, framed. Of a load that is not refused no
// number is left out.
pub fn sender_writes()
    ensures { SenderWrites }
{}

// What it writes is one packet of the line, read, with the contents that `packet_of` says; the line of a load is its packets, one for one.
pub fn sender_is_read()
    ensures { SenderIsRead }
{}

// The loader takes the BEGIN of every load that the sender takes for its flash, and gives 0xC5 to that of every other whose numbers are
// words.
pub fn judged_as_loader()
    ensures { JudgedAsLoader }
{}

// A load with a number that no word holds is refused.
pub fn numbers_are_words()
    ensures { NumbersAreWords }
{}

// A load that the sender does not refuse for a flash, fed to a fresh loader with that flash, and other buffers that it accepts, by byte
// calls, by run calls, or cut anywhere: the calls that close a packet are its packets, one for one, each answered with success; and so
// after every packet.
pub fn every_packet_succeeds()
    ensures { EveryPacketSucceeds }
{}

// After its END the image stands at its offset, the rest of the last touched sector is 0xFF, every other byte of flash, the words and
// the attach word are as before the first byte, and no session is open.
pub fn image_stands()
    ensures { ImageStands }
{}

// A file whose packets are counted left a byte of its buffer free, and they are counted by all that was read.
pub fn file_is_whole()
    ensures { FileIsWhole }
{}

// An empty image gives SYNC, a BEGIN with S = 0 and n = 0, and END.
pub fn empty_image()
    ensures { EmptyImage }
{}

// A buffer of 8,242 bytes is never too short for the sender.
pub fn frame_fits()
    ensures { FrameFits }
{}

// The packets of two loads, byte by byte; a load that is taken, and one for each refusal.
pub fn worked_send()
    ensures { WorkedSend }
{}

// ---- The link.

// A call of the link that has a number is refused with it, and no other is; its record and its buffer come back as they were.
pub fn link_refused_changes_nothing()
    ensures { LinkRefusedChangesNothing }
{}

// A frame that gets status 1 or 2 leaves power, phase, rate, RPC and outstanding data as they were.
pub fn link_failed_changes_nothing()
    ensures { LinkFailedChangesNothing }
{}

// A byte that shows an error leads back to Start, of the same edition and with power off, with nothing sent, and no other byte is told as one.
pub fn errors_detected()
    ensures { ErrorsDetected }
{}

// From the record that opening gives, for either edition, no list of calls leads to refusal 5.
pub fn never_refused()
    ensures { NeverRefused }
{}

// A record that refusal 5 lets pass stays one under every list of calls.
pub fn sound_stays()
    ensures { SoundStays }
{}

// Judged after the silence and dead time checks, such a record would be refused with the same number.
pub fn sound_after_checks()
    ensures { SoundAfterChecks }
{}

// Held bytes pass refusal 5 exactly where a longer good frame of the record's edition starts with them.
pub fn starts_are()
    ensures { StartsAre }
{}

// A byte ends a good frame of the edition, goes on with one, or shows an error at once.
pub fn reading_is()
    ensures { ReadingIs }
{}

// Every frame that either end writes is read as what it is.
pub fn reads_own()
    ensures { ReadsOwn }
{}

// Out of dead time, 67 bytes with those held decide, whatever calls come between.
pub fn decides()
    ensures { Decides }
{}

// A rate that is told is on the list, data that is handed over is at most 64 bytes, and a failure is 1 or 2.
pub fn tells_only()
    ensures { TellsOnly }
{}

// Silence counts frames. A call is activity where its answer shows entry to Baud or the last byte of a frame that is no detected error.
// Over every list of calls from a fresh link, outside Start: the tick of last activity is that of the last such call; a call that is not
// refused tells a loss exactly at 250 ms or more since then, and is then the call of a fresh link, whatever was held.
pub fn silence_counts_frames()
    ensures { SilenceCountsFrames }
{}

// Where dead time runs, it counts from the tick of the call that told that the link is open.
pub fn dead_since_baud()
    ensures { DeadSinceBaud }
{}

// To a sound link in Open, out of dead time and with nothing held, within 250 ms of the last activity: with RPC open the bytes of a data
// frame are quiet until the last, which hands over exactly its data and sends status 0; those of a status after our send are quiet until
// the last, which tells how our data has ended; with RPC closed, under the later edition, those of 04 02 06 and 04 03 07 switch the power.
pub fn delivers()
    ensures { Delivers }
{}

// Ten calls bring a fresh link there; and of a data frame that then comes a byte every 200 ms the second byte finds the link lost.
pub fn worked_probe()
    ensures { WorkedProbe }
{}

// A link is opened for edition 1 or 2, and for no other: 18, with a record that every call refuses with 5. No call changes the edition.
pub fn opening_is()
    ensures { OpeningIs }
{}

// A record of another edition, or with power on under the first edition or outside Open, is refused with 5 by every call.
pub fn edition_judged()
    ensures { EditionJudged }
{}

// From opening on, for every list of calls: as long as no frame 04 02 or 04 03 is begun, each call answers the same under both editions,
// its buffer to the last byte too; and whether one is begun is the same, read off either run.
pub fn same_answers()
    ensures { SameAnswers }
{}

// From opening on, for every list of calls: power is what the answers told last, off at a loss or a detected error, and on only in Open
// under the later edition. It is told exactly at the last byte of 04 02 or 04 03 there with RPC closed, with status 0; with RPC open such a
// frame gets status 1 and changes nothing.
pub fn power_is()
    ensures { PowerIs }
{}

// A connection with power on, with RPC opened over it, with power off, an error and a silence, byte by byte; under the first edition the byte
// 02 behind 04 is an error.
pub fn worked_power()
    ensures { WorkedPower }
{}

// ---- The worked cases.

// The starred cases of document 01, in one table.
pub fn starred()
    ensures { Starred }
{}

// Cases of the digest command: of "abc", of no bytes at the end of flash, and with words that break its rule.
pub fn digest_cases()
    ensures { DigestCases }
{}

// Cases of two lines on one pin: the packer gives 17, SPI_ATTACH 0xC7, a record that holds the word is refused with 5; 9 and 0xC5 come
// first, and words 0 and 1 stay good.
pub fn pin_cases()
    ensures { PinCases }
{}

// The listing of the example's bytes, in whatever blocks they are handed over, is its heading and its two lines; a dropped packet behind
// them has its reason as the last field, and `--` in the two before; the line of each reason. On one text buffer it makes no difference,
// for any input, where the blocks end.
pub fn example()
    ensures { Example }
{}
