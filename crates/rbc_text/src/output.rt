//! Writing answers and messages as output text: those of a desk, or those of one input. The functions that write a line
//! are inlined in both: they take a tenth of the time of a batch that sends many messages.

ghost use Rattle.std.specs.Prelude.{◌≡◌, ◌++◌, ◌-◌, ◌≤◌, codes, drop, length, take, OnOk, IfOk};
ghost use Rattle.std.specs.Fmt.{decimal};
ghost use Rattle.std.specs.List.{flat_map, enumerate_from};
ghost use Rattle.hex.specs.Hex.{encode_upper};
ghost use Rattle.ertms_codec.specs.ToTrain.{Fits, spelling_of};
ghost use Rattle.rbc_desk.specs.Sendable.{AreSendable};
ghost use Rattle.rbc_rule.specs.Gathered as sending;
ghost use Rattle.rbc_text.specs.OutputText.{reply_text, result_line, sent_line, outbox_lines, output_of};
ghost use Rattle.rbc_text.specs.OutputText.{answer_of};

use ertms_codec::{ToTrain, write_to_train};
use itoa::Buffer;
use rbc_desk::{Desk, Mail};
use rbc_rule::{Reply, SentList};
use std::alloc::{AllocError, Global};

/// Appends a number in decimal, without leading zeros.
#[inline(always)]
pub fn push_decimal(text: &mut Vec<u8>, number: u64) -> Result<(), AllocError>
    ensures { OnOk result (text.new.items ≡ text.old.items ++ decimal number) }
{
    let mut buffer = Buffer::new();
    text.extend_from_slice(buffer.format(number).as_bytes())
}

/// Appends `ok COUNT` or `refused CODE`.
fn push_reply(text: &mut Vec<u8>, reply: Reply) -> Result<(), AllocError>
    ensures { OnOk result (text.new.items ≡ text.old.items ++ reply_text reply) }
{
    match reply {
        Reply::Done(sent) => {
            text.extend_from_slice(b"ok ")?;
            push_decimal(text, u64::from(sent))
        }
        Reply::Refused(code) => {
            text.extend_from_slice(b"refused ")?;
            push_decimal(text, u64::from(code))
        }
    }
}

/// Appends that an input was accepted and sent nothing, as most inputs do, and ends the line.
fn push_nothing_sent(text: &mut Vec<u8>) -> Result<(), AllocError>
    ensures { OnOk result (text.new.items ≡ text.old.items ++ codes " ok 0\n") }
{
    text.extend_from_slice(b" ok 0\n")
}

/// Appends the line of one result.
#[inline(always)]
pub fn push_result(text: &mut Vec<u8>, input: u64, reply: Reply) -> Result<(), AllocError>
    ensures { OnOk result (text.new.items ≡ text.old.items ++ result_line (input, reply)) }
{
    push_decimal(text, input)?;
    match reply {
        Reply::Done(0) => push_nothing_sent(text),
        _ => {
            text.extend_from_slice(b" ")?;
            push_reply(text, reply)?;
            text.extend_from_slice(b"\n")
        }
    }
}

/// The hexadecimal digits, in upper case.
const DIGITS: [u8; 16] = *b"0123456789ABCDEF";

/// How many bytes are turned into digits at once. A message of at most this many takes one step.
const AT_ONCE: usize = 32;

/// Appends at most 32 bytes as hexadecimal digits, in upper case. They are written into a buffer first, which is
/// quicker than pushing them one by one.
#[inline(always)]
fn push_digits(text: &mut Vec<u8>, bytes: &[u8]) -> Result<(), AllocError>
    requires { length bytes.now ≤ AT_ONCE }
    ensures { OnOk result (text.new.items ≡ text.old.items ++ encode_upper bytes.now) }
{
    let mut buffer = [0u8; 2 * AT_ONCE];
    let digits = &mut buffer[..2 * bytes.len()];
    for index in 0..bytes.len() {
        digits[2 * index] = DIGITS[usize::from(bytes[index] >> 4)];
        digits[2 * index + 1] = DIGITS[usize::from(bytes[index] & 15)];
    }
    text.extend_from_slice(digits)
}

/// Appends bytes as hexadecimal digits, in upper case.
#[inline(always)]
fn push_hex(text: &mut Vec<u8>, bytes: &[u8]) -> Result<(), AllocError>
    ensures { OnOk result (text.new.items ≡ text.old.items ++ encode_upper bytes.now) }
{
    let mut rest = bytes;
    while rest.len() > AT_ONCE {
        let (first, behind) = rest.split_at(AT_ONCE);
        push_digits(text, first)?;
        rest = behind;
    }
    push_digits(text, rest)
}

/// Appends the line of a message that an input sent. The label is the number of the engine in decimal. The message is
/// written into a buffer first.
#[inline(always)]
fn push_sent(
    text: &mut Vec<u8>,
    buffer: &mut [u8; 1024],
    label: &str,
    input: u64,
    message: &ToTrain,
) -> Result<(), AllocError>
    requires { Fits message.now }
    ensures { OnOk result (text.new.items ≡ text.old.items
        ++ (label.now ++ codes " " ++ decimal input ++ codes " "
        ++ encode_upper (spelling_of message.now) ++ codes "\n")) }
{
    let used = write_to_train(message, buffer);
    text.extend_from_slice(label.as_bytes())?;
    text.extend_from_slice(b" ")?;
    push_decimal(text, input)?;
    text.extend_from_slice(b" ")?;
    push_hex(text, &buffer[..used])?;
    text.extend_from_slice(b"\n")
}

/// Appends the lines of an engine's outbox.
fn push_outbox(
    text: &mut Vec<u8>,
    buffer: &mut [u8; 1024],
    engine: u32,
    mails: &[Mail],
) -> Result<(), AllocError>
    requires { AreSendable mails.now }
    ensures { OnOk result (text.new.items ≡ text.old.items ++ outbox_lines (engine, mails.now)) }
{
    let mut number = Buffer::new();
    let label = number.format(engine);
    for mail in mails {
        push_sent(text, buffer, label, u64::from(mail.input), &mail.message)?;
    }
    Ok(())
}

/// Appends the lines of all results, numbered from 1.
#[inline(always)]
fn push_results(text: &mut Vec<u8>, results: &[Reply]) -> Result<(), AllocError>
    ensures { OnOk result (text.new.items ≡ text.old.items ++ flat_map result_line (enumerate_from 1 results.now)) }
{
    for (place, reply) in results.iter().enumerate() {
        push_result(text, place as u64 + 1, *reply)?;
    }
    Ok(())
}

/// Appends the lines of the outboxes of a desk at the indices of a range.
fn push_outboxes(text: &mut Vec<u8>, desk: &Desk, from: usize, to: usize) -> Result<(), AllocError>
    requires in_order { from ≤ to }
    requires within { to ≤ length desk.now.outboxes }
    ensures { OnOk result (text.new.items ≡ text.old.items
        ++ flat_map outbox_lines (take (to - from) (drop from desk.now.outboxes))) }
{
    let mut buffer = [0u8; 1024];
    for index in from..to {
        let (engine, mails) = desk.outbox_at(index);
        push_outbox(text, &mut buffer, engine, mails)?;
    }
    Ok(())
}

/// The output text of a desk: the results from 1 on, and then the messages by engine.
pub fn render(alloc: Global, desk: &Desk) -> Result<Vec<u8>, AllocError>
    ensures { IfOk result (λ text. text.items ≡ output_of desk.now.results desk.now.outboxes) }
{
    let mut text = Vec::new(alloc);
    push_results(&mut text, desk.results())?;
    push_outboxes(&mut text, desk, 0, desk.outboxes())?;
    Ok(text)
}

/// The lines of all results of a desk, with which its output text begins.
pub fn render_results(alloc: Global, desk: &Desk) -> Result<Vec<u8>, AllocError>
    ensures { IfOk result (λ text. text.items ≡ flat_map result_line (enumerate_from 1 desk.now.results)) }
{
    let mut text = Vec::new(alloc);
    push_results(&mut text, desk.results())?;
    Ok(text)
}

/// The lines of the outboxes of a desk at the indices of a range: a part of its output text.
pub fn render_outboxes(
    alloc: Global,
    desk: &Desk,
    from: usize,
    to: usize,
) -> Result<Vec<u8>, AllocError>
    requires in_order { from ≤ to }
    requires within { to ≤ length desk.now.outboxes }
    ensures { IfOk result (λ text. text.items
        ≡ flat_map outbox_lines (take (to - from) (drop from desk.now.outboxes))) }
{
    let mut text = Vec::new(alloc);
    push_outboxes(&mut text, desk, from, to)?;
    Ok(text)
}

/// Appends the lines of the messages that an input sent, in the order in which they are sent.
fn push_messages(text: &mut Vec<u8>, input: u64, messages: &SentList) -> Result<(), AllocError>
    requires { sending.AreSendable messages.now }
    ensures { OnOk result (text.new.items ≡ text.old.items ++ flat_map (sent_line input) messages.now) }
{
    let mut buffer = [0u8; 1024];
    let mut number = Buffer::new();
    for index in 0..messages.len() {
        let sent = messages.at(index);
        let label = number.format(sent.engine);
        push_sent(text, &mut buffer, label, input, &sent.message)?;
    }
    Ok(())
}

/// The text of the answer to one input: the line of its result, and then its messages in the order in which they are
/// sent.
pub fn render_answer(
    alloc: Global,
    input: u64,
    reply: Reply,
    messages: &SentList,
) -> Result<Vec<u8>, AllocError>
    requires { sending.AreSendable messages.now }
    ensures { IfOk result (λ text. text.items ≡ answer_of input reply messages.now) }
{
    let mut text = Vec::new(alloc);
    push_result(&mut text, input, reply)?;
    push_messages(&mut text, input, messages)?;
    Ok(text)
}
