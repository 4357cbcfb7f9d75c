//! Optical proximity correction of layouts: the program, with its words, its files and its standard output.
#![tactic(auto)]

mod file_host;

use file_host::FileHost;
use opc_base::{NoMemory, NoWatch};
use opc_cli::{opc_run, say_no_memory};
use std::env;
use std::env::Env;
use std::process::ExitCode;

/// The runtime gave no words.
const NO_WORDS: u8 = 1;

fn main(rt: HostRuntime) -> ExitCode {
    let mut host = FileHost::new(&rt);
    match words_after_name(&rt) {
        Ok(Some(words)) => { ExitCode::from(opc_run(&rt, rt.alloc(), &words, &mut host, &NoWatch)) }
        Ok(None) => ExitCode::from(NO_WORDS),
        Err(NoMemory) => ExitCode::from(say_no_memory(rt.alloc(), &mut host)),
    }
}

/// The words after the program's own name, where the runtime gives any.
fn words_after_name<R: Env + AllocGlobal>(rt: &R) -> Result<Option<Vec<String>>, NoMemory> {
    let Ok(all) = env::args(rt) else {
        return Ok(None);
    };
    let mut words = Vec::new(rt.alloc());
    for word in all.skip(1) {
        words.push(word)?;
    }
    Ok(Some(words))
}
