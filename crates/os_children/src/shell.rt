// The shell that runs a command.
ghost use Rattle.std.specs.Prelude.{◌≡◌, ◌∷◌, ◌++◌, [], ℕ, List, true, None, IfOk, IfErr, OnOk, codes};
ghost use Rattle.std.specs.Process.{command_program, command_args, command_var, clears_env, SameProgramAndArgs};
ghost use Rattle.std.specs.IoError.{error_kind};
ghost use Rattle.spawn_dev.specs.ShellText.{shell_text_of};
ghost use Rattle.os_children.specs.Shell.{set_over, set_all_over, var_of};

use crate::reports::out_of_memory;
use rel_path::Text;
use spawn_dev::{Command, shell_text};
use std::alloc::{AllocError, Global};
use std::io::ErrorKind;
use std::process::{Child, Processes, Stdio};
use std::{io, process};

fn push_word(shell: &mut process::Command, word: &str) -> Result<(), AllocError>
    ensures word { OnOk result (command_args shell.new ≡ command_args shell.old ++ word.now ∷ []) }
    ensures program { OnOk result (command_program shell.new ≡ command_program shell.old) }
{
    shell.arg(word)?;
    Ok(())
}

fn clear(shell: &mut process::Command)
    ensures clears { clears_env shell.new ≡ true }
    ensures vars { (name : List ℕ) → command_var shell.new name ≡ None }
    ensures call { SameProgramAndArgs shell.old shell.new }
{
    shell.env_clear();
}

fn set_var(shell: &mut process::Command, pair: &(Text, Text)) -> Result<(), AllocError>
    ensures set { OnOk result ((name : List ℕ)
        → command_var shell.new name ≡ set_over (command_var shell.old name) pair.now name) }
    ensures clears { OnOk result (clears_env shell.new ≡ clears_env shell.old) }
    ensures call { OnOk result (SameProgramAndArgs shell.old shell.new) }
{
    shell.env(pair.0.as_str(), pair.1.as_str())?;
    Ok(())
}

// Of pairs of one name the first counts, so the last is set first.
fn set_all(shell: &mut process::Command, pairs: &[(Text, Text)]) -> Result<(), AllocError>
    ensures set { OnOk result ((name : List ℕ)
        → command_var shell.new name ≡ set_all_over (command_var shell.old name) pairs.now name) }
    ensures clears { OnOk result (clears_env shell.new ≡ clears_env shell.old) }
    ensures call { OnOk result (SameProgramAndArgs shell.old shell.new) }
{
    let mut rest = pairs;
    while let Some((pair, before)) = rest.split_last() {
        set_var(shell, pair)?;
        rest = before;
    }
    Ok(())
}

/// The shell with the command's text, and exactly the pairs that the command is given: those that count as
/// input, and behind them those that are passed on. Of pairs of one name the first counts.
pub fn shell(alloc: Global, command: &Command) -> io::Result<process::Command>
    ensures program { IfOk result (λ shell. command_program shell ≡ codes "/bin/sh") }
    ensures args { IfOk result
        (λ shell. command_args shell ≡ codes "-c" ∷ shell_text_of command.now ∷ []) }
    ensures clears { IfOk result (λ shell. clears_env shell ≡ true) }
    ensures vars { IfOk result
        (λ shell. (name : List ℕ) → command_var shell name ≡ var_of command.now name) }
    ensures memory { IfErr result (λ e. error_kind e ≡ ErrorKind.OutOfMemory) }
{
    let text = shell_text(alloc, command).map_err(|_| out_of_memory())?;
    let mut shell = process::Command::new(alloc, "/bin/sh")?;
    push_word(&mut shell, "-c")?;
    push_word(&mut shell, text.as_str())?;
    clear(&mut shell);
    set_all(&mut shell, command.given.as_slice())?;
    set_all(&mut shell, command.env.as_slice())?;
    Ok(shell)
}

/// Starts it with no input, and with its output in a pipe.
pub fn spawn<R: Processes>(rt: &R, shell: &mut process::Command) -> io::Result<Child<R::Started>> {
    shell.stdin(Stdio::null());
    shell.stdout(Stdio::piped());
    shell.spawn(rt)
}
