// Runs the test suite of RFC 1321, A.5, on the code. Prints a line for each message, with its digest and `good`, or `bad` where that is
// not the RFC's, and last how many are good.
#![tactic(auto)]

use std::io;

// The digits of a digest, two for each of its sixteen bytes.
const DIGITS: usize = 32;

// The suite's messages, each with its digest as the RFC prints it.
const SUITE: [(&str, &str); 7] = [
    ("", "d41d8cd98f00b204e9800998ecf8427e"),
    ("a", "0cc175b9c0f1b6a831c399e269772661"),
    ("abc", "900150983cd24fb0d6963f7d28e17f72"),
    ("message digest", "f96b697d7cb7938d525a2f31aaf161d0"),
    (
        "abcdefghijklmnopqrstuvwxyz",
        "c3fcd3d76192e4007dfb496cca67e13b",
    ),
    (
        "ABCDEFGHIJKLMNOPQRSTUVWXYZabcdefghijklmnopqrstuvwxyz0123456789",
        "d174ab98d277d9f5a5611c2c9f419d9f",
    ),
    (
        "12345678901234567890123456789012345678901234567890123456789012345678901234567890",
        "57edf4a22be3c955ac49da2e2107b67a",
    ),
];

fn main(rt: HostRuntime) -> io::Result<()> {
    let mut good: usize = 0;
    for (message, expected) in SUITE {
        let digest = digest::md5(message.as_bytes(), 0, message.len());
        let mut text = [0u8; DIGITS];
        hex::encode_to_slice(digest, &mut text).unwrap();
        let is_good = text.as_slice() == expected.as_bytes();
        good += usize::from(is_good);
        // the run goes on where its output fails, and its last line then ends it with the error
        let _ = rt.write_all(&text);
        let _ = println!(rt; "\t{}", if is_good { "good" } else { "bad" });
    }
    println!(rt; "{good} of {} good", SUITE.len())
}
