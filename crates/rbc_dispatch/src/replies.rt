//! How the inputs of a run were answered, in numbers.

ghost use Rattle.std.specs.Prelude.{◌≡◌, length};
ghost use Rattle.std.specs.List.{filter, sum_by};
ghost use Rattle.rbc_dispatch.specs.Replies.{is_accepted, is_refused_with, messages_of};

use rbc_batch::Desk;
use rbc_rule::Reply;

/// How many inputs were accepted.
pub fn accepted(results: &[Reply]) -> usize
    ensures { result ≡ length (filter is_accepted results.now) }
{
    results.iter().filter(|reply| is_accepted(**reply)).count()
}

fn is_accepted(reply: Reply) -> bool
    ensures { result ≡ is_accepted reply }
{
    matches!(reply, Reply::Done(_))
}

/// How many inputs were refused with a code.
pub fn refused_with(results: &[Reply], code: u8) -> usize
    ensures { result ≡ length (filter (is_refused_with code) results.now) }
{
    results
        .iter()
        .filter(|reply| is_refused_with(**reply, code))
        .count()
}

fn is_refused_with(reply: Reply, wanted: u8) -> bool
    ensures { result ≡ is_refused_with wanted reply }
{
    match reply {
        Reply::Done(_) => false,
        Reply::Refused(code) => code == wanted,
    }
}

/// How many messages were sent to all trains.
pub fn messages(desk: &Desk) -> u64
    ensures { result ≡ sum_by messages_of desk.now.results }
{
    let mut sent = 0u64;
    for reply in desk.results() {
        sent += u64::from(messages_of(*reply));
    }
    sent
}

fn messages_of(reply: Reply) -> u32
    ensures { result ≡ messages_of reply }
{
    match reply {
        Reply::Done(sent) => sent,
        Reply::Refused(_) => 0,
    }
}
