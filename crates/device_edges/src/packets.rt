// The bytes of packets.

pub const PACKET: &[u8] = b"aaa";

pub const LONGEST: [u8; 2048] = [b'a'; 2048];

pub const TOO_LONG: [u8; 2049] = [b'a'; 2049];

// More bytes than any slot has.
pub const MORE: [u8; 9218] = [b'a'; 9218];

pub const OTHERS: [u8; 9218] = [b'b'; 9218];
