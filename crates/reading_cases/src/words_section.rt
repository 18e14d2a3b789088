// Words of the command line, and the order that they are.
use anyhow::{Result, bail};
use case_files::{answers, inputs};
use cli_words::{Access, EnvWord, KeepOn, LogWord, Order, RunOrder, WordsErr};
use rel_path::Texts;
use serde_json::{Map, Value, json, put};
use std::alloc::Global;

// How many commands run at once where no option says it.
const WIDTH: u32 = 10;

// Which stores a run reads and puts into where no option says it.
const LOCAL_ALONE: Access = Access {
    local_reads: true,
    local_puts: true,
    second_reads: false,
    second_puts: false,
};

fn refusal(alloc: Global, error: WordsErr) -> Result<Value> {
    match error {
        WordsErr::Unknown { at } => answers::error_at(alloc, "Unknown", at),
        WordsErr::NoTask => answers::error(alloc, "NoTask"),
        WordsErr::BadValue { at } => answers::error_at(alloc, "BadValue", at),
        WordsErr::Twice { at } => answers::error_at(alloc, "Twice", at),
        WordsErr::OutOfMemory => bail!("out of memory"),
    }
}

fn log_word(logs: LogWord) -> &'static str {
    match logs {
        LogWord::Full => "full",
        LogWord::HashOnly => "hash-only",
        LogWord::NewOnly => "new-only",
        LogWord::ErrorsOnly => "errors-only",
        LogWord::Silent => "none",
    }
}

fn env_word(word: EnvWord) -> &'static str {
    match word {
        EnvWord::Strict => "strict",
        EnvWord::Loose => "loose",
    }
}

fn continue_word(keep_on: KeepOn) -> &'static str {
    match keep_on {
        KeepOn::Never => "never",
        KeepOn::DependenciesSuccessful => "dependencies-successful",
        KeepOn::Always => "always",
    }
}

fn rights(reads: bool, puts: bool) -> &'static str {
    match (reads, puts) {
        (true, true) => "rw",
        (true, false) => "r",
        (false, true) => "w",
        (false, false) => "",
    }
}

fn put_stores(alloc: Global, fields: &mut Map<String, Value>, order: &RunOrder) -> Result<()> {
    let access = order.access;
    if access != LOCAL_ALONE {
        let local = rights(access.local_reads, access.local_puts);
        let second = rights(access.second_reads, access.second_puts);
        let text = format!(in alloc; "local:{local},remote:{second}")?;
        put(fields, alloc, "cache", Value::String(text))?;
    }
    if order.shared {
        put(fields, alloc, "shared", Value::Bool(true))?;
    }
    Ok(())
}

fn put_texts(
    alloc: Global,
    fields: &mut Map<String, Value>,
    name: &str,
    texts: &Texts,
) -> Result<()> {
    if !texts.as_slice().is_empty() {
        put(
            fields,
            alloc,
            name,
            answers::texts(alloc, texts.as_slice())?,
        )?;
    }
    Ok(())
}

fn put_choices(alloc: Global, fields: &mut Map<String, Value>, order: &RunOrder) -> Result<()> {
    if order.keep_on != KeepOn::Never {
        let word = answers::text(alloc, continue_word(order.keep_on))?;
        put(fields, alloc, "continue", word)?;
    }
    if let Some(logs) = order.logs {
        put(fields, alloc, "logs", answers::text(alloc, log_word(logs))?)?;
    }
    if let Some(word) = order.env_word {
        put(fields, alloc, "env", answers::text(alloc, env_word(word))?)?;
    }
    Ok(())
}

fn put_flags(alloc: Global, fields: &mut Map<String, Value>, order: &RunOrder) -> Result<()> {
    if order.width != WIDTH {
        put(fields, alloc, "concurrency", Value::from(order.width))?;
    }
    if order.force {
        put(fields, alloc, "force", Value::Bool(true))?;
    }
    if order.dry {
        put(fields, alloc, "dry", Value::Bool(true))?;
    }
    Ok(())
}

// The order of a run, without what is as where no option says it.
fn run(alloc: Global, order: &RunOrder) -> Result<Value> {
    let mut fields = Map::new(alloc);
    put_texts(alloc, &mut fields, "run", &order.tasks)?;
    put_texts(alloc, &mut fields, "filters", &order.filters)?;
    put_texts(alloc, &mut fields, "args", &order.args)?;
    put_flags(alloc, &mut fields, order)?;
    put_choices(alloc, &mut fields, order)?;
    put_stores(alloc, &mut fields, order)?;
    Ok(Value::Object(fields))
}

fn prune(alloc: Global, targets: &Texts, docker: bool) -> Result<Value> {
    let targets = answers::texts(alloc, targets.as_slice())?;
    if docker {
        return Ok(json!(in alloc; {"prune": targets, "docker": true})?);
    }
    Ok(json!(in alloc; {"prune": targets})?)
}

fn read(alloc: Global, case: &Value) -> Result<Result<Order, WordsErr>> {
    let words = inputs::texts(alloc, case, "words")?;
    Ok(Order::read(alloc, words.as_slice()))
}

fn order(alloc: Global, case: &Value) -> Result<Value> {
    match read(alloc, case)? {
        Ok(Order::Help) => answers::text(alloc, "help"),
        Ok(Order::Prune { targets, docker }) => prune(alloc, &targets, docker),
        Ok(Order::Sample { size }) => Ok(json!(in alloc; {"sample": size})?),
        Ok(Order::Compact { keep }) => Ok(json!(in alloc; {"compact": keep})?),
        Ok(Order::Run(order)) => run(alloc, &order),
        Err(error) => refusal(alloc, error),
    }
}

fn message(alloc: Global, case: &Value) -> Result<Value> {
    match read(alloc, case)? {
        Ok(_order) => bail!("no refusal"),
        Err(error) => answers::printed(alloc, &error),
    }
}

pub fn answer(alloc: Global, case: &Value) -> Result<Value> {
    match inputs::text_or(case, "call", "read")? {
        "read" => order(alloc, case),
        "message" => message(alloc, case),
        _ => bail!("no such call"),
    }
}
