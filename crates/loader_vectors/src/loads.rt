// A load at the sending end: its packets, and all of them on a line.
use fields::word_at;
use sender::{LONGEST_FRAME, LoadError, PacketError, Place};
use tables::{part, put};

// No image of the table has more bytes. Image and line are arrays: `Runner::run` has no error for memory that runs out.
pub const IMAGE: usize = 16384;

// No load of the table has more bytes, framed. What does not fit is left out, and the loader closes fewer packets than there are.
pub const LINE: usize = 65536;

// Where a load goes, and its image.
#[derive(Clone, Copy)]
pub struct Load<'a> {
    place: Place,
    image: &'a [u8],
}

// Fills an image with the bytes behind a load's numbers, over and over.
fn draw(input: &[u8], image: &mut [u8]) {
    let bytes = part(input, 16, input.len());
    for (to, byte) in image.iter_mut().zip(bytes.iter().cycle()) {
        *to = *byte;
    }
}

// A load of four numbers, offset, block size, flash length, image length, and the bytes that its image repeats.
pub fn load_of<'a>(input: &[u8], image: &'a mut [u8; IMAGE]) -> Load<'a> {
    draw(input, image);
    Load {
        place: Place {
            offset: word_at(input, 0) as usize,
            block: word_at(input, 4) as usize,
            flash: word_at(input, 8) as usize,
        },
        image: part(image, 0, word_at(input, 12) as usize),
    }
}

impl Load<'_> {
    // The packet with a number, framed.
    fn packet(&self, number: usize, frame: &mut [u8]) -> Result<usize, PacketError> {
        sender::packet(self.image, self.place, number, frame)
    }

    // The packet with a number, framed, or the number that it is refused with; how many bytes that is.
    pub fn put_packet(&self, number: usize, got: &mut [u8]) -> usize {
        match self.packet(number, got) {
            Ok(n) => n,
            Err(error) => put(&[error.into()], got),
        }
    }

    pub fn packet_count(&self) -> Result<usize, LoadError> {
        sender::packet_count(self.image, self.place)
    }

    // The first packets of the load, framed, one behind the other; how many bytes they are.
    pub fn put_line(&self, count: usize, line: &mut [u8; LINE]) -> usize {
        let mut at: usize = 0;
        for number in 0..count {
            let mut frame = [0u8; LONGEST_FRAME];
            if let Ok(n) = self.packet(number, &mut frame) {
                lists::copy_at(line, at, part(&frame, 0, n));
                at = at.wrapping_add(n);
            }
        }
        at
    }
}
