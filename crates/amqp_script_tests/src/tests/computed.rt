//! What the definitions compute to, with no code between: what a client says, octet by octet, the
//! moments of a script's steps, and the reports of whole scripts.

ghost use Rattle.std.specs.Prelude.{◌≡◌, [], ◌∷◌, ◌++◌, false, true, None, Ok, Err, codes};
ghost use Rattle.amqp_frame.specs.Frames.{encoding};
ghost use Rattle.amqp_uri.specs.Address.{local};
ghost use Rattle.amqp_auth.specs.declared.asked.Asked.TheVariants as answer;
ghost use Rattle.amqp_settings.specs.Config.{config_of, no_options, with_locale, with_name, with_property};
ghost use Rattle.amqp_settings.specs.Handshake.{protocol_header, start_ok, tune_ok, open_vhost, our_close, close_ok, channel_open, our_channel_close};
ghost use Rattle.amqp_engine.specs.declared.given.GivenStep.TheVariants.{Link, Tick, End};
ghost use Rattle.amqp_replay.specs.Grammar.{given, parsed};
ghost use Rattle.amqp_replay.specs.Report.{hexadecimal};
ghost use Rattle.amqp_replay.specs.Top.{printout};

// What a client says, octet by octet.
fn what_is_said_is_spelled_so()
    ensures header { hexadecimal (encoding protocol_header) ≡ codes "414d515000000901" }
    ensures start_ok { hexadecimal (encoding (start_ok no_options (codes "PLAIN") (0 ∷ codes "guest" ++ 0 ∷ codes "guest"))) ≡ codes "01000000000133000a000b0000010f0c6361706162696c697469657346000000c71c61757468656e7469636174696f6e5f6661696c7572655f636c6f736574010a62617369632e6e61636b740112636f6e6e656374696f6e2e626c6f636b6564740116636f6e73756d65725f63616e63656c5f6e6f74696679740113636f6e73756d65725f7072696f72697469657374010f6469726563745f7265706c795f746f74011a65786368616e67655f65786368616e67655f62696e64696e67737401107065725f636f6e73756d65725f716f737401127075626c69736865725f636f6e6669726d73740108706c6174666f726d5300000004727573740770726f6475637453000000056c6170696e0776657273696f6e5300000005342e342e3005504c41494e0000000c00677565737400677565737405656e5f5553ce" }
    ensures tune_ok { hexadecimal (encoding (tune_ok (record { channel_max = 2047; frame_max = 131072; heartbeat = 60 }))) ≡ codes "0100000000000c000a001f07ff00020000003cce" }
    ensures open { hexadecimal (encoding (open_vhost (codes "/"))) ≡ codes "01000000000008000a0028012f0000ce" }
    ensures close { hexadecimal (encoding (our_close 200 (codes "OK"))) ≡ codes "0100000000000d000a003200c8024f4b00000000ce" }
    ensures close_ok { hexadecimal (encoding close_ok) ≡ codes "01000000000004000a0033ce" }
    ensures channel_open { hexadecimal (encoding (channel_open 1)) ≡ codes "010001000000050014000a00ce" }
    ensures channel_close { hexadecimal (encoding (our_channel_close 1 200 (codes "OK"))) ≡ codes "0100010000000d0014002800c8024f4b00000000ce" }
{}

// A step has the moment that its line names, or that of the step before it.
fn moments_are_read_so()
    ensures falling { parsed false (codes "link\n@05 tick\n\n# 7\ntick\n@3 end\ntick") ≡ Ok (record { config = config_of local no_options; handed = false; listens = false; steps = given 0 (Link None) ∷ given 5 Tick ∷ given 5 Tick ∷ given 3 End ∷ given 3 Tick ∷ [] }) }
    ensures greatest { parsed false (codes "@18446744073709551615 link\n") ≡ Ok (record { config = config_of local no_options; handed = false; listens = false; steps = given 18446744073709551615 (Link None) ∷ [] }) }
{}

// Settings are made in the order of their lines, before all steps.
fn settings_are_read_so()
    ensures made { parsed false (codes "locale de\n# one\nproperty a b c\nname n\nproperty a\n@1 tick\n") ≡ Ok (record { config = config_of local (with_property (codes "a") [] (with_name (codes "n") (with_property (codes "a") (codes "b c") (with_locale (codes "de") no_options)))); handed = false; listens = false; steps = given 1 Tick ∷ [] }) }
    ensures twice { parsed false (codes "locale de\nname n\nlocale de\n") ≡ Err 3 }
    ensures late { parsed false (codes "tick\nproperty a b\n") ≡ Err 2 }
    ensures timed { parsed false (codes "@1 name n\n") ≡ Err 1 }
{}

// That the provider which was handed is used is said once, before all steps, and only where one was.
fn a_provider_is_named_so()
    ensures named { parsed true (codes "provider handed\n@1 tick\n") ≡ Ok (record { config = config_of local no_options; handed = true; listens = false; steps = given 1 Tick ∷ [] }) }
    ensures twice { parsed true (codes "provider handed\nprovider handed\n") ≡ Err 2 }
    ensures late { parsed true (codes "tick\nprovider handed\n") ≡ Err 2 }
    ensures other { parsed true (codes "provider own\n") ≡ Err 1 }
    ensures more { parsed true (codes "provider handed now\n") ≡ Err 1 }
    ensures none { parsed false (codes "provider handed\n") ≡ Err 1 }
{}

// That events are kept is said once, before all steps, and by one word.
fn listening_is_read_so()
    ensures made { parsed false (codes "listen\n@1 tick\n") ≡ Ok (record { config = config_of local no_options; handed = false; listens = true; steps = given 1 Tick ∷ [] }) }
    ensures twice { parsed false (codes "listen\nlisten\n") ≡ Err 2 }
    ensures late { parsed false (codes "tick\nlisten\n") ≡ Err 2 }
    ensures more { parsed false (codes "listen x\n") ≡ Err 1 }
    ensures timed { parsed false (codes "@1 listen\n") ≡ Err 1 }
{}

// An error that ends the session is told to those who listen.
fn an_error_is_reported_so()
    ensures told { printout (parsed false (codes "listen\nrefuse\n")) [] ≡ record { status = 5; text = codes "answer 0 err IO error: connection refused\nevent error IO error: connection refused\nend error IO error: connection refused\n" } }
    ensures unheard { printout (parsed false (codes "refuse\n")) [] ≡ record { status = 5; text = codes "answer 0 err IO error: connection refused\nend error IO error: connection refused\n" } }
{}

// A header of another version.
fn another_version_is_replayed_so()
    ensures { printout (parsed false (codes "link\nbytes 414d515000000800\n")) [] ≡ record { status = 5; text = codes "link 1 414d515000000901\nanswer 0 err the server only supports AMQP 0-8-0\nend error the server only supports AMQP 0-8-0\n" } }
{}

// The handshake, and our close.
fn the_handshake_is_replayed_so()
    ensures { printout (parsed false (codes "link\nbytes 01000000000061000a000a00090000003c0c6361706162696c69746965734600000015127075626c69736865725f636f6e6669726d7374010770726f6475637453000000085261626269744d510000000e504c41494e20414d51504c41494e00000005656e5f5553ce\nbytes 0100000000000c000a001e07ff00020000003cce\nbytes 01000000000005000a002900ce\nshut 200 OK\nbytes 01000000000004000a0033ce\n")) (answer.Mechanism (codes "PLAIN") ∷ answer.Starter (Ok (0 ∷ codes "guest" ++ 0 ∷ codes "guest")) ∷ []) ≡ record { status = 0; text = codes "link 1 414d51500000090101000000000133000a000b0000010f0c6361706162696c697469657346000000c71c61757468656e7469636174696f6e5f6661696c7572655f636c6f736574010a62617369632e6e61636b740112636f6e6e656374696f6e2e626c6f636b6564740116636f6e73756d65725f63616e63656c5f6e6f74696679740113636f6e73756d65725f7072696f72697469657374010f6469726563745f7265706c795f746f74011a65786368616e67655f65786368616e67655f62696e64696e67737401107065725f636f6e73756d65725f716f737401127075626c69736865725f636f6e6669726d73740108706c6174666f726d5300000004727573740770726f6475637453000000056c6170696e0776657273696f6e5300000005342e342e3005504c41494e0000000c00677565737400677565737405656e5f5553ce0100000000000c000a001f07ff00020000003cce01000000000008000a0028012f0000ce0100000000000d000a003200c8024f4b00000000ce\nanswer 0 ok connected\nanswer 1 ok done\nend closed\n" } }
{}

// Two channels, and a number that is drawn again once both are closed.
fn two_channels_are_replayed_so()
    ensures { printout (parsed false (codes "link\nbytes 01000000000061000a000a00090000003c0c6361706162696c69746965734600000015127075626c69736865725f636f6e6669726d7374010770726f6475637453000000085261626269744d510000000e504c41494e20414d51504c41494e00000005656e5f5553ce\nbytes 0100000000000c000a001e0002000010000000ce\nbytes 01000000000005000a002900ce\nopen\nbytes 010001000000080014000b00000000ce\nopen\nbytes 010002000000080014000b00000000ce\nclose 1 200 OK\nbytes 0100010000000400140029ce\nclose 2 200 OK\nbytes 0100020000000400140029ce\nopen\nbytes 010001000000080014000b00000000ce\n")) (answer.Mechanism (codes "PLAIN") ∷ answer.Starter (Ok (0 ∷ codes "guest" ++ 0 ∷ codes "guest")) ∷ []) ≡ record { status = 6; text = codes "link 1 414d51500000090101000000000133000a000b0000010f0c6361706162696c697469657346000000c71c61757468656e7469636174696f6e5f6661696c7572655f636c6f736574010a62617369632e6e61636b740112636f6e6e656374696f6e2e626c6f636b6564740116636f6e73756d65725f63616e63656c5f6e6f74696679740113636f6e73756d65725f7072696f72697469657374010f6469726563745f7265706c795f746f74011a65786368616e67655f65786368616e67655f62696e64696e67737401107065725f636f6e73756d65725f716f737401127075626c69736865725f636f6e6669726d73740108706c6174666f726d5300000004727573740770726f6475637453000000056c6170696e0776657273696f6e5300000005342e342e3005504c41494e0000000c00677565737400677565737405656e5f5553ce0100000000000c000a001f0002000010000000ce01000000000008000a0028012f0000ce010001000000050014000a00ce010002000000050014000a00ce0100010000000d0014002800c8024f4b00000000ce0100020000000d0014002800c8024f4b00000000ce010001000000050014000a00ce\nanswer 0 ok connected\nanswer 1 ok channel 1\nanswer 2 ok channel 2\nanswer 3 ok done\nanswer 4 ok done\nanswer 5 ok channel 1\nend running\n" } }
{}
