// The header of a whole packet.
#![tactic(auto)]

ghost use Rattle.std.specs.Prelude.{◌≡◌};
ghost use Rattle.slip_unframing.specs.Reasons.{whole};
ghost use Rattle.slip_packets.specs.Packets.{header};
ghost use Rattle.esp_header.specs.Classified.{classified};

use slip_unframing::Reason;

// A closed packet: dropped for a reason, or read, with its command. No Result: the scope names an enum
// that `let .. else` takes apart.
#[derive(Clone, Copy)]
pub enum Packet {
    Dropped(Reason),
    Read(u8),
}

// A whole packet is read where it has a header and its direction is 0, in this order.
#[tactic(auto, unfolding(slip_packets::specs::Packets::header, esp_commands::specs::Header::command))]
pub fn read_packet(packet: &[u8]) -> Packet
    ensures { result ≡ classified (header (whole packet.now)) }
{
    if packet.len() < fields::HEADER {
        return Packet::Dropped(Reason::TooShort);
    }
    if packet[0] != 0 {
        return Packet::Dropped(Reason::WrongDirection);
    }
    Packet::Read(packet[1])
}
