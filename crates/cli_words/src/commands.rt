// The orders of commands.
ghost use Rattle.std.specs.Prelude.{◌≡◌, ◌<◌, ◌+◌, ◌^◌, IfOk, IsOkUnless, length, option_and_then};
ghost use Rattle.cli_words.specs.Answers.{Reads};
ghost use Rattle.cli_words.specs.Orders.{first_use, run_order, order_in, command_order, sample_order};
ghost use Rattle.cli_words.specs.Values.{width_in, keep_on_in, logs_in, env_word_in, access_in, keep_in};
ghost use Rattle.cli_words.specs.Seen.{all_seen};
ghost use Rattle.cli_words.specs.declared.error.WordsErr.TheVariants.{OutOfMemory};

use crate::faults::fault_in;
use crate::items::{Placed, items};
use crate::options::{
    CACHE, Command, DOCKER, DRY, ENV_MODE, FILTERS, FORCE, KEEP, KEEP_ON, LOGS, SHARED, WIDTH,
};
use crate::uses::{extra_in, first_use, is_used, names_in, values_in};
use crate::values::{access_in, env_word_in, keep_in, keep_on_in, logs_in, sample_size, width_in};
use crate::{Access, EnvWord, KeepOn, LogWord, Order, RunOrder, WordsErr};
use rel_path::Text;
use std::alloc::Global;

/// How many commands may run at once where no option says it.
const DEFAULT_WIDTH: u32 = 10;

/// The access to stores where no option says it.
const LOCAL_ALONE: Access = Access {
    local_reads: true,
    local_puts: true,
    second_reads: false,
    second_puts: false,
};

fn width_of(items: &[Placed]) -> Option<u32>
    ensures { result ≡ option_and_then width_in (first_use WIDTH (all_seen items.now)) }
{
    width_in(first_use(WIDTH, items)?)
}

fn keep_on_of(items: &[Placed]) -> Option<KeepOn>
    ensures { result ≡ option_and_then keep_on_in (first_use KEEP_ON (all_seen items.now)) }
{
    keep_on_in(first_use(KEEP_ON, items)?)
}

fn logs_of(items: &[Placed]) -> Option<LogWord>
    ensures { result ≡ option_and_then logs_in (first_use LOGS (all_seen items.now)) }
{
    logs_in(first_use(LOGS, items)?)
}

fn env_word_of(items: &[Placed]) -> Option<EnvWord>
    ensures { result ≡ option_and_then env_word_in (first_use ENV_MODE (all_seen items.now)) }
{
    env_word_in(first_use(ENV_MODE, items)?)
}

fn access_of(items: &[Placed]) -> Option<Access>
    ensures { result ≡ option_and_then access_in (first_use CACHE (all_seen items.now)) }
{
    access_in(first_use(CACHE, items)?)
}

fn keep_of(items: &[Placed]) -> Option<u64>
    ensures { result ≡ option_and_then keep_in (first_use KEEP (all_seen items.now)) }
{
    keep_in(first_use(KEEP, items)?)
}

#[tactic(auto, unfolding(crate::specs::Orders::run_order))]
fn run_order(alloc: Global, items: &[Placed]) -> Result<RunOrder, WordsErr>
    ensures value { IfOk result (λ order. order ≡ run_order (all_seen items.now)) }
    ensures memory { IsOkUnless result OutOfMemory }
{
    Ok(RunOrder {
        tasks: names_in(alloc, items)?,
        filters: values_in(alloc, FILTERS, items)?,
        args: extra_in(alloc, items)?,
        width: width_of(items).unwrap_or(DEFAULT_WIDTH),
        force: is_used(FORCE, items),
        dry: is_used(DRY, items),
        keep_on: keep_on_of(items).unwrap_or(KeepOn::Never),
        logs: logs_of(items),
        env_word: env_word_of(items),
        access: access_of(items).unwrap_or(LOCAL_ALONE),
        shared: is_used(SHARED, items),
    })
}

fn order_in(alloc: Global, command: Command, items: &[Placed]) -> Result<Order, WordsErr>
    ensures value { IfOk result (λ order. order ≡ order_in command (all_seen items.now)) }
    ensures memory { IsOkUnless result OutOfMemory }
{
    match command {
        Command::Run => Ok(Order::Run(run_order(alloc, items)?)),
        Command::Prune => Ok(Order::Prune {
            targets: names_in(alloc, items)?,
            docker: is_used(DOCKER, items),
        }),
        Command::Compact => Ok(Order::Compact {
            keep: keep_of(items),
        }),
    }
}

/// Reads the words of a command, of which the first has this place.
#[tactic(auto, unfolding(crate::specs::Orders::command_order))]
pub(crate) fn command_order(
    alloc: Global,
    command: Command,
    words: &[Text],
    first: u64,
) -> Result<Order, WordsErr>
    requires { first + length words.now < 2 ^ 64 }
    ensures { Reads (command_order command first words.now) result }
{
    let items = match items(alloc, command, words, first) {
        Ok(items) => items,
        Err(error) => return Err(error),
    };
    if let Some(fault) = fault_in(command, items.as_slice()) {
        return Err(fault);
    }
    order_in(alloc, command, items.as_slice())
}

/// Reads the words behind `sample`: a size alone.
pub(crate) fn sample_order(words: &[Text]) -> Result<Order, WordsErr>
    ensures { result ≡ sample_order words.now }
{
    let Some((word, more)) = words.split_first() else {
        return Err(WordsErr::BadValue { at: 0 });
    };
    let Some(size) = sample_size(word.as_str()) else {
        return Err(WordsErr::BadValue { at: 1 });
    };
    if !more.is_empty() {
        return Err(WordsErr::Unknown { at: 2 });
    }
    Ok(Order::Sample { size })
}
