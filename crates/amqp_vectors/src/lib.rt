//! Frames that stand in tests, octet by octet.
//!
//! Each is a text in hexadecimal, field by field: the type, the channel, the size, the payload, the
//! end. Blanks and line feeds are for reading only. A frame of a channel has the channel's number
//! last in its name. `octets` has those that this client says as octets, and `octets_of` makes octets
//! of a text.
#![tactic(auto)]

mod decoding;
pub mod octets;

pub use decoding::{octets_of, push_octets};

// ---- the header and the handshake

/// The protocol header, version 0-9-1.
pub const HEADER: &str = "414d5150 00 000901";

/// start: version 0-9, PLAIN and AMQPLAIN, en_US, the product RabbitMQ, which has confirms.
pub const START: &str = "01 0000 00000061 000a000a 0009 0000003c
    0c 6361706162696c6974696573 46 00000015 12 7075626c69736865725f636f6e6669726d73 7401
    07 70726f64756374 53 00000008 5261626269744d51
    0000000e 504c41494e20414d51504c41494e 00000005 656e5f5553 ce";

/// The start-ok of this client: user and password `guest` by PLAIN, en_US.
pub const START_OK: &str = "01 0000 00000133 000a000b 0000010f
    0c 6361706162696c6974696573 46 000000c7
    1c 61757468656e7469636174696f6e5f6661696c7572655f636c6f7365 7401
    0a 62617369632e6e61636b 7401
    12 636f6e6e656374696f6e2e626c6f636b6564 7401
    16 636f6e73756d65725f63616e63656c5f6e6f74696679 7401
    13 636f6e73756d65725f7072696f726974696573 7401
    0f 6469726563745f7265706c795f746f 7401
    1a 65786368616e67655f65786368616e67655f62696e64696e6773 7401
    10 7065725f636f6e73756d65725f716f73 7401
    12 7075626c69736865725f636f6e6669726d73 7401
    08 706c6174666f726d 53 00000004 72757374
    07 70726f64756374 53 00000005 6c6170696e
    07 76657273696f6e 53 00000005 342e342e30
    05 504c41494e 0000000c 006775657374006775657374 05 656e5f5553 ce";

/// The same, by the mechanism RABBIT-CR-DEMO for the user `bob`.
pub const START_OK_DEMO: &str = "01 0000 00000133 000a000b 0000010f
    0c 6361706162696c6974696573 46 000000c7
    1c 61757468656e7469636174696f6e5f6661696c7572655f636c6f7365 7401
    0a 62617369632e6e61636b 7401
    12 636f6e6e656374696f6e2e626c6f636b6564 7401
    16 636f6e73756d65725f63616e63656c5f6e6f74696679 7401
    13 636f6e73756d65725f7072696f726974696573 7401
    0f 6469726563745f7265706c795f746f 7401
    1a 65786368616e67655f65786368616e67655f62696e64696e6773 7401
    10 7065725f636f6e73756d65725f716f73 7401
    12 7075626c69736865725f636f6e6669726d73 7401
    08 706c6174666f726d 53 00000004 72757374
    07 70726f64756374 53 00000005 6c6170696e
    07 76657273696f6e 53 00000005 342e342e30
    0e 5241424249542d43522d44454d4f 00000003 626f62 05 656e5f5553 ce";

/// The same by PLAIN, for nobody, with the token `my new valid token`.
pub const START_OK_TOKEN: &str = "01 0000 0000013b 000a000b 0000010f
    0c 6361706162696c6974696573 46 000000c7
    1c 61757468656e7469636174696f6e5f6661696c7572655f636c6f7365 7401
    0a 62617369632e6e61636b 7401
    12 636f6e6e656374696f6e2e626c6f636b6564 7401
    16 636f6e73756d65725f63616e63656c5f6e6f74696679 7401
    13 636f6e73756d65725f7072696f726974696573 7401
    0f 6469726563745f7265706c795f746f 7401
    1a 65786368616e67655f65786368616e67655f62696e64696e6773 7401
    10 7065725f636f6e73756d65725f716f73 7401
    12 7075626c69736865725f636f6e6669726d73 7401
    08 706c6174666f726d 53 00000004 72757374
    07 70726f64756374 53 00000005 6c6170696e
    07 76657273696f6e 53 00000005 342e342e30
    05 504c41494e 00000014 0000 6d79206e65772076616c696420746f6b656e 05 656e5f5553 ce";

/// The challenge `Please tell me your password`.
pub const SECURE: &str = "01 0000 00000024 000a0014 0000001c
    506c656173652074656c6c206d6520796f75722070617373776f7264 ce";

/// The response `My password is hunter`.
pub const SECURE_OK: &str = "01 0000 0000001d 000a0015 00000015
    4d792070617373776f72642069732068756e746572 ce";

/// At most 2047 channels, frames of 131072 octets, a heartbeat of 60 seconds.
pub const TUNE: &str = "01 0000 0000000c 000a001e 07ff 00020000 003c ce";

/// What `TUNE` is answered with.
pub const TUNE_OK: &str = "01 0000 0000000c 000a001f 07ff 00020000 003c ce";

/// At most 2 channels, frames of 4096 octets, no heartbeats.
pub const TUNE_2: &str = "01 0000 0000000c 000a001e 0002 00001000 0000 ce";

/// What `TUNE_2` is answered with.
pub const TUNE_OK_2: &str = "01 0000 0000000c 000a001f 0002 00001000 0000 ce";

/// open, of the virtual host `/`.
pub const OPEN: &str = "01 0000 00000008 000a0028 012f 00 00 ce";

/// open-ok.
pub const OPEN_OK: &str = "01 0000 00000005 000a0029 00 ce";

/// connection.start as RabbitMQ 3.10.8 sent it, 509 octets.
pub const RABBITMQ_START: &str = "01 0000 000001f5 000a000a 0009 000001d0
    0c 6361706162696c6974696573 46 000000c7
    12 7075626c69736865725f636f6e6669726d73 7401
    1a 65786368616e67655f65786368616e67655f62696e64696e6773 7401
    0a 62617369632e6e61636b 7401
    16 636f6e73756d65725f63616e63656c5f6e6f74696679 7401
    12 636f6e6e656374696f6e2e626c6f636b6564 7401
    13 636f6e73756d65725f7072696f726974696573 7401
    1c 61757468656e7469636174696f6e5f6661696c7572655f636c6f7365 7401
    10 7065725f636f6e73756d65725f716f73 7401
    0f 6469726563745f7265706c795f746f 7401
    0c 636c75737465725f6e616d65 53 0000000e 70656572406c6f63616c686f7374
    09 636f70797269676874 53 00000037
    436f707972696768742028632920323030372d3230323220564d776172652c20496e632e206f722069747320616666696c69617465732e
    0b 696e666f726d6174696f6e 53 00000039
    4c6963656e73656420756e64657220746865204d504c20322e302e20576562736974653a2068747470733a2f2f7261626269746d712e636f6d
    08 706c6174666f726d 53 00000011 45726c616e672f4f54502032352e322e33
    07 70726f64756374 53 00000008 5261626269744d51
    07 76657273696f6e 53 00000006 332e31302e38
    0000000e 504c41494e20414d51504c41494e 00000005 656e5f5553 ce";

// ---- the connection

/// Our close, and any close with code 200 and text `OK`.
pub const CLOSE: &str = "01 0000 0000000d 000a0032 00c8 024f4b 0000 0000 ce";

/// close-ok.
pub const CLOSE_OK: &str = "01 0000 00000004 000a0033 ce";

/// A close with code 320 and text `CONNECTION_FORCED`.
pub const CLOSE_320: &str = "01 0000 0000001c 000a0032 0140
    11 434f4e4e454354494f4e5f464f52434544 0000 0000 ce";

/// A close with code 540 and text `NO` for the method of class 60 and number 40.
pub const CLOSE_540: &str = "01 0000 0000000d 000a0032 021c 024e4f 003c 0028 ce";

/// blocked, for the reason `low`.
pub const BLOCKED: &str = "01 0000 00000008 000a003c 036c6f77 ce";

/// unblocked.
pub const UNBLOCKED: &str = "01 0000 00000004 000a003d ce";

/// update-secret: the secret `my new valid token`, for `Automatic periodical refresh`.
pub const SECRET: &str = "01 0000 00000037 000a0046 00000012
    6d79206e65772076616c696420746f6b656e
    1c 4175746f6d6174696320706572696f646963616c2072656672657368 ce";

/// update-secret-ok.
pub const SECRET_OK: &str = "01 0000 00000004 000a0047 ce";

/// A heartbeat.
pub const HEARTBEAT: &str = "08 0000 00000000 ce";

// ---- channels

/// channel.open of channel 1.
pub const CHANNEL_OPEN_1: &str = "01 0001 00000005 0014000a 00 ce";

/// channel.open of channel 2.
pub const CHANNEL_OPEN_2: &str = "01 0002 00000005 0014000a 00 ce";

/// channel.open-ok of channel 1.
pub const CHANNEL_OPEN_OK_1: &str = "01 0001 00000008 0014000b 00000000 ce";

/// channel.open-ok of channel 2.
pub const CHANNEL_OPEN_OK_2: &str = "01 0002 00000008 0014000b 00000000 ce";

/// channel.flow of channel 1, off.
pub const CHANNEL_FLOW_OFF_1: &str = "01 0001 00000005 00140014 00 ce";

/// channel.flow of channel 1, on.
pub const CHANNEL_FLOW_ON_1: &str = "01 0001 00000005 00140014 01 ce";

/// channel.flow-ok of channel 1, off.
pub const CHANNEL_FLOW_OK_OFF_1: &str = "01 0001 00000005 00140015 00 ce";

/// channel.flow-ok of channel 1, on.
pub const CHANNEL_FLOW_OK_ON_1: &str = "01 0001 00000005 00140015 01 ce";

/// channel.close of channel 1, with code 200 and text `OK`.
pub const CHANNEL_CLOSE_1: &str = "01 0001 0000000d 00140028 00c8 024f4b 0000 0000 ce";

/// channel.close of channel 2, with code 200 and text `OK`.
pub const CHANNEL_CLOSE_2: &str = "01 0002 0000000d 00140028 00c8 024f4b 0000 0000 ce";

/// channel.close-ok of channel 1.
pub const CHANNEL_CLOSE_OK_1: &str = "01 0001 00000004 00140029 ce";

/// channel.close-ok of channel 2.
pub const CHANNEL_CLOSE_OK_2: &str = "01 0002 00000004 00140029 ce";

/// channel.close of channel 1, with code 404 and text `NOT_FOUND`.
pub const CHANNEL_CLOSE_404_1: &str = "01 0001 00000014 00140028 0194
    09 4e4f545f464f554e44 0000 0000 ce";

/// channel.close of channel 1, with code 406 and text `NO` for the method of class 60 and number 40.
pub const CHANNEL_CLOSE_406_1: &str = "01 0001 0000000d 00140028 0196 024e4f 003c 0028 ce";

// ---- what is passed through

/// A method of class 60 and number 40 without arguments, on channel 1.
pub const METHOD_1: &str = "01 0001 00000004 003c0028 ce";

/// confirm.select-ok on channel 1.
pub const SELECT_OK_1: &str = "01 0001 00000004 0055000b ce";

/// confirm.select-ok on channel 2.
pub const SELECT_OK_2: &str = "01 0002 00000004 0055000b ce";

/// A content header on channel 1, of a body of 2 octets.
pub const CONTENT_HEADER_1: &str = "02 0001 0000000e 003c 0000 0000000000000002 0000 ce";

/// The body `abc` on channel 1.
pub const BODY_1: &str = "03 0001 00000003 616263 ce";

/// The body `hi` on channel 2.
pub const BODY_2: &str = "03 0002 00000002 6869 ce";

/// A body without octets on channel 2.
pub const EMPTY_BODY_2: &str = "03 0002 00000000 ce";

// ---- what a server may not say

/// close-ok of the connection, on channel 1.
pub const CLOSE_OK_ON_1: &str = "01 0001 00000004 000a0033 ce";

/// confirm.select-ok on channel 0.
pub const SELECT_OK_0: &str = "01 0000 00000004 0055000b ce";

/// A content header on channel 0, of a body of 2 octets.
pub const CONTENT_HEADER_0: &str = "02 0000 0000000e 003c 0000 0000000000000002 0000 ce";

/// The body `hi` on channel 0.
pub const BODY_0: &str = "03 0000 00000002 6869 ce";

/// channel.open-ok on channel 0.
pub const CHANNEL_OPEN_OK_0: &str = "01 0000 00000008 0014000b 00000000 ce";

/// A heartbeat on channel 1.
pub const HEARTBEAT_1: &str = "08 0001 00000000 ce";

/// A method of class 60 and number 40 without arguments, on channel 1, up to its last octet.
pub const ALL_BUT_AN_END: &str = "01 0001 00000004 003c0028";
