//! What `oracle/sealed_links.py` writes: the vectors of RFC 4231, and the worked example of docs/LETTERS.md.

/// Keys, messages and their codes (RFC 4231, 4.2 to 4.5, 4.7 and 4.8).
pub const CODES: [(&str, &str, &str); 6] = [
    (
        "0b0b0b0b0b0b0b0b0b0b0b0b0b0b0b0b0b0b0b0b",
        "4869205468657265",
        "b0344c61d8db38535ca8afceaf0bf12b881dc200c9833da726e9376c2e32cff7",
    ),
    (
        "4a656665",
        "7768617420646f2079612077616e7420666f72206e6f7468696e673f",
        "5bdcc146bf60754e6a042426089575c75a003f089d2739839dec58b964ec3843",
    ),
    (
        "aaaaaaaaaaaaaaaaaaaaaaaaaaaaaaaaaaaaaaaa",
        "dddddddddddddddddddddddddddddddddddddddddddddddddddddddddddddddddddddddddddddddddddddddddddddddddddd",
        "773ea91e36800e46854db8ebd09181a72959098b3ef8c122d9635514ced565fe",
    ),
    (
        "0102030405060708090a0b0c0d0e0f10111213141516171819",
        "cdcdcdcdcdcdcdcdcdcdcdcdcdcdcdcdcdcdcdcdcdcdcdcdcdcdcdcdcdcdcdcdcdcdcdcdcdcdcdcdcdcdcdcdcdcdcdcdcdcd",
        "82558a389a443c0ea4cc819899f2083a85f0faa3e578f8077a2e3ff46729665b",
    ),
    (
        "aaaaaaaaaaaaaaaaaaaaaaaaaaaaaaaaaaaaaaaaaaaaaaaaaaaaaaaaaaaaaaaaaaaaaaaaaaaaaaaaaaaaaaaaaaaaaaaaaaaaaaaaaaaaaaaaaaaaaaaaaaaaaaaaaaaaaaaaaaaaaaaaaaaaaaaaaaaaaaaaaaaaaaaaaaaaaaaaaaaaaaaaaaaaaaaaaaaaaaaaaaaaaaaaaaaaaaaaaaaaaaaaaaaaaaaaaaaaaaaaaaaaaaaaaaaaaaaaaaaaaa",
        "54657374205573696e67204c6172676572205468616e20426c6f636b2d53697a65204b6579202d2048617368204b6579204669727374",
        "60e431591ee0b67f0d8a26aacbf5b77f8e0bc6213728c5140546040f0ee37f54",
    ),
    (
        "aaaaaaaaaaaaaaaaaaaaaaaaaaaaaaaaaaaaaaaaaaaaaaaaaaaaaaaaaaaaaaaaaaaaaaaaaaaaaaaaaaaaaaaaaaaaaaaaaaaaaaaaaaaaaaaaaaaaaaaaaaaaaaaaaaaaaaaaaaaaaaaaaaaaaaaaaaaaaaaaaaaaaaaaaaaaaaaaaaaaaaaaaaaaaaaaaaaaaaaaaaaaaaaaaaaaaaaaaaaaaaaaaaaaaaaaaaaaaaaaaaaaaaaaaaaaaaaaaaaaaa",
        "5468697320697320612074657374207573696e672061206c6172676572207468616e20626c6f636b2d73697a65206b657920616e642061206c6172676572207468616e20626c6f636b2d73697a6520646174612e20546865206b6579206e6565647320746f20626520686173686564206265666f7265206265696e6720757365642062792074686520484d414320616c676f726974686d2e",
        "9b09ffa71b942fcb27635fbcd5b0e944bfdc63644f0713938a7f51535c3a35e2",
    ),
];

/// The secret.
pub const SECRET: &str = "000102030405060708090a0b0c0d0e0f101112131415161718191a1b1c1d1e1f";

/// The dialler's greeting.
pub const DIALLER_GREETING: &str =
    "7063720100404142434445464748494a4b4c4d4e4f505152535455565758595a5b5c5d5e5f";

/// The listener's greeting.
pub const LISTENER_GREETING: &str =
    "7063720101808182838485868788898a8b8c8d8e8f909192939495969798999a9b9c9d9e9f";

/// The listener's proof.
pub const LISTENER_PROOF: &str = "b07c553f132aceffacd1888d34078c4f920cedbb41452671126eb08d2bfff064";

/// The dialler's proof.
pub const DIALLER_PROOF: &str = "ac262152ae3dd273b44eed02c9cdcfddd7ef682dcf3f0c577e8235d8afa6e6fa";

/// The dialler's first record.
pub const DIALLER_RECORD: &str =
    "0034000000300300000007000001010000000000000001000000010000000000000002000000000501000667773b313b3100000001017a5fac97992fc6958acf62208809f88f27422e962bda3e9668e144656fc853f6";

/// The listener's first record.
pub const LISTENER_RECORD: &str =
    "0018000000140300000007010001030000010000000000000001f9f080d90525c6e1abcec0316eb3bf8832bc5e9c73540427a9a8e6d47ff94d34";

/// The letter of the dialler.
pub const END_OF_SESSION: &str =
    "000000300300000007000001010000000000000001000000010000000000000002000000000501000667773b313b310000000101";

/// The letter of the listener.
pub const ACKNOWLEDGEMENT: &str = "000000140300000007010001030000010000000000000001";
