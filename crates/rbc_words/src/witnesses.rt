//! Worked cases of the law on texts, right ones and wrong ones.

ghost use Rattle.std.specs.Prelude.{codes};
ghost use Rattle.ertms_codec.specs.declared.name.Name.TheVariants.{Distance, Em, Scale, Speed};
ghost use Rattle.ertms_codec.specs.declared.wrong_word.Expected.TheVariants.{End, Message, Name, Number, Packet};
ghost use Rattle.rbc_words.specs.TextWitnesses.{IsEncoded, IsWrongAt};

/// - Texts that are encoded, with the bytes as hexadecimal digits: one of each message, message 136 with packet 0 and
///   with packet 1, and message 24 with packet 65 and with packet 66.
/// - Texts that are refused, with the first wrong word: a word too many, a number out of its range, a leading zero,
///   packet 65 without its speed, the balise group before the last one in packet 0, an unknown first word, and two
///   spaces in a row.
/// - Wrong bytes of the first text: fill bits of 1, level 2, and a train that moves. Wrong bytes of a revocation: those
///   of an emergency stop.
pub fn text_law_witnesses()
    ensures report { IsEncoded
        (codes "136 stamp 1000 engine 7 0 scale 0 lrbg 5 distance 2000 dir 1 side 1 over 100 under 100")
        (codes "8806000000FA000001C000E400000287D0500C8019000830") }
    ensures report_of_two_groups { IsEncoded
        (codes "136 stamp 1000 engine 7 1 scale 0 lrbg 5 previous 6 distance 2000 dir 1 side 1 over 100 under 100")
        (codes "8806C00000FA000001C0411400000280000307D0500C8019000830") }
    ensures acknowledgement { IsEncoded
        (codes "146 stamp 1000 engine 7 acked 16")
        (codes "9203800000FA000001C000000400") }
    ensures stop_acknowledgement { IsEncoded
        (codes "147 stamp 2000 engine 7 em 0 answer 3 0 scale 0 lrbg 5 distance 2000 dir 1 side 1 over 100 under 100")
        (codes "9306400001F4000001C300039000000A1F41403200640020C0") }
    ensures stop_at { IsEncoded
        (codes "15 stamp 1 ack 0 lrbg 5 em 0 scale 2 ref -32768 dir 2 stop 32767")
        (codes "0F03C0000000400000A140005FFFC0") }
    ensures stop { IsEncoded
        (codes "16 stamp 1 ack 0 lrbg 5 em 15")
        (codes "100280000000400000BE") }
    ensures revoke { IsEncoded
        (codes "18 stamp 1 ack 0 lrbg 5 em 0")
        (codes "120280000000400000A0") }
    ensures restrict { IsEncoded
        (codes "24 stamp 1001 ack 1 lrbg 5 65 dir 1 scale 0 tsr 255 start 0 length 1000 front 1 speed 120")
        (codes "1804C00000FA600000A82811CFF00000FA3E00") }
    ensures lift { IsEncoded
        (codes "24 stamp 1001 ack 1 lrbg 5 66 dir 2 tsr 255")
        (codes "1803800000FA600000A85007FFC0") }
    ensures word_too_many { IsWrongAt (codes "18 stamp 1 ack 0 lrbg 5 em 0 em 0") 10 End }
    ensures out_of_range { IsWrongAt (codes "16 stamp 1 ack 0 lrbg 5 em 16") 9 (Number 15) }
    ensures leading_zero { IsWrongAt (codes "16 stamp 01 ack 0 lrbg 5 em 0") 3 (Number 4294967295) }
    ensures without_speed { IsWrongAt
        (codes "24 stamp 1 ack 0 lrbg 5 65 dir 1 scale 0 tsr 0 start 0 length 10 front 1") 21 (Name Speed) }
    ensures previous_in_packet_0 { IsWrongAt
        (codes "136 stamp 1 engine 7 0 scale 0 lrbg 5 previous 6 distance 2000 dir 1 side 1 over 100 under 100")
        11 (Name Distance) }
    ensures unknown_message { IsWrongAt (codes "recv 16 stamp 1 ack 0 lrbg 5 em 0") 1 Message }
    ensures two_spaces { IsWrongAt (codes "16 stamp 1 ack 0 lrbg 5  em 0") 8 (Name Em) }
    ensures fill_bits_of_1 { IsEncoded
        (codes "136 stamp 1000 engine 7 0 scale 0 lrbg 5 distance 2000 dir 1 side 1 over 100 under 100")
        (codes "8806000000FA000001C000E400000287D0500C801900083F") → ⊥ }
    ensures level_2 { IsEncoded
        (codes "136 stamp 1000 engine 7 0 scale 0 lrbg 5 distance 2000 dir 1 side 1 over 100 under 100")
        (codes "8806000000FA000001C000E400000287D0500C8019000820") → ⊥ }
    ensures moving { IsEncoded
        (codes "136 stamp 1000 engine 7 0 scale 0 lrbg 5 distance 2000 dir 1 side 1 over 100 under 100")
        (codes "8806000000FA000001C000E400000287D0500C8019002830") → ⊥ }
    ensures stop_for_revocation { IsEncoded (codes "18 stamp 1 ack 0 lrbg 5 em 0") (codes "100280000000400000A0") → ⊥ }
{}
