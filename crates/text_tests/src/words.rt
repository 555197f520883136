use super::rows::{JOBS, REFUSED, WHYS};
use chain_scan::ChainPlan;
use command_line::{ChipOptions, Inputs, Job, Way, WordsFault, read_words, why_refused};
use rv_model::Version;
use std::alloc::{AllocError, Global};
use std::test::Fail;

/// The words of a line, which single spaces part.
fn words_of(alloc: Global, line: &str) -> Result<Vec<String>, AllocError> {
    let mut words = Vec::new(alloc);
    for word in line.split(' ') {
        words.push(String::from_str(alloc, word)?)?;
    }
    Ok(words)
}

/// The job of a line's words.
fn read(alloc: Global, line: &str) -> Result<Job, WordsFault> {
    read_words(alloc, &words_of(alloc, line)?)
}

/// What is said of a line's words that write no job.
fn why(alloc: Global, line: &str) -> Result<String, Fail> {
    match why_refused(alloc, &words_of(alloc, line)?) {
        Ok(()) => Ok(String::new(alloc)),
        Err(why) => Ok(format!(in alloc; "{why}")?),
    }
}

/// The lengths of a chain, near TDO and far from it, or that there is none.
fn shown_chain(alloc: Global, chain: Option<ChainPlan>) -> Result<String, Fail> {
    match chain {
        Some(plan) => Ok(format!(in alloc; "near {:?} far {:?}", plan.near(), plan.far())?),
        None => Ok(String::from_str(alloc, "straight")?),
    }
}

/// The way to the chip.
fn shown_way(alloc: Global, way: Way) -> Result<String, Fail> {
    match way {
        Way::Straight => shown_chain(alloc, None),
        Way::Looped => Ok(String::from_str(alloc, "looped")?),
        Way::Chained(plan) => shown_chain(alloc, Some(plan)),
    }
}

/// How a chip is made.
fn shown_options(alloc: Global, options: ChipOptions) -> Result<String, Fail> {
    let ChipOptions {
        harts,
        ram,
        halted,
        seed,
        busy,
        events,
        version,
    } = options;
    let release = match version {
        Version::V013 => " of 0.13",
        Version::V10 => "",
    };
    Ok(format!(in alloc; "{harts} {ram} {halted} {seed} {busy} {events}{release}")?)
}

/// A job; of one that is made from the number 5 not its inputs.
fn shown_job(alloc: Global, job: Job) -> Result<String, Fail> {
    match job {
        Job::Both(inputs, options, piece, way) => {
            let options = shown_options(alloc, options)?;
            let way = shown_way(alloc, way)?;
            match inputs {
                Inputs::Gen(5) => Ok(format!(in alloc; "{options} {piece} {way}")?),
                inputs => Ok(format!(in alloc; "{inputs:?} {options} {piece} {way}")?),
            }
        }
        Job::Elf {
            file,
            script,
            options,
            piece,
        } => {
            let options = shown_options(alloc, options)?;
            Ok(format!(in alloc; "{file} loaded, {script} {options} {piece}")?)
        }
        Job::Soft {
            image,
            script,
            options,
            piece,
        } => {
            let options = shown_options(alloc, options)?;
            Ok(format!(in alloc; "{image} {script} with software breakpoints {options} {piece}")?)
        }
        Job::Probe { at, script, chain } => {
            let chain = shown_chain(alloc, chain)?;
            Ok(format!(in alloc; "{at} {script} {chain}")?)
        }
        Job::ProbeElf { at, file, script } => {
            Ok(format!(in alloc; "{at} {file} loaded, {script}")?)
        }
        Job::ProbeSoft { at, script } => {
            Ok(format!(in alloc; "{at} {script} with software breakpoints")?)
        }
        Job::Chip {
            at,
            image,
            options,
            chain,
        } => {
            let options = shown_options(alloc, options)?;
            let chain = shown_chain(alloc, chain)?;
            Ok(format!(in alloc; "{at} {image} {options} {chain}")?)
        }
        Job::Sniff {
            stream,
            answers,
            waves,
        } => {
            let way = if waves { "drawn" } else { "listed" };
            Ok(format!(in alloc; "{stream} {answers} {way}")?)
        }
    }
}

/// Whether a line's words are this job.
fn is_job(alloc: Global, line: &str, wanted: &str) -> Result<bool, Fail> {
    let text = shown_job(alloc, read(alloc, line)?)?;
    Ok(text.as_str() == wanted)
}

#[test]
fn reads_or_refuses(rt: HostRuntime) -> Result<(), Fail> {
    for row in JOBS.split('\n') {
        let (line, wanted) = row.split_once('|').unwrap_or((row, ""));
        assert!(rt; is_job(rt.alloc(), line, wanted)?, "{row}");
    }
    for line in REFUSED.split('\n') {
        assert!(rt;
            matches!(read(rt.alloc(), line), Err(WordsFault::Refused)),
            "{line}"
        );
    }
    assert!(rt; matches!(read_words(rt.alloc(), &[]), Err(WordsFault::Refused)));
    Ok(())
}

// Of each line that writes no job a word is named, and of no other.
#[test]
fn names_the_word_at_fault(rt: HostRuntime) -> Result<(), Fail> {
    for row in WHYS.split('\n') {
        let (line, wanted) = row.split_once('|').unwrap_or((row, ""));
        assert_eq!(rt; why(rt.alloc(), line)?.as_str(), wanted, "{line}");
    }
    for line in REFUSED.split('\n') {
        assert!(rt; !why(rt.alloc(), line)?.is_empty(), "{line}");
    }
    for row in JOBS.split('\n') {
        let (line, _) = row.split_once('|').unwrap_or((row, ""));
        assert!(rt; why(rt.alloc(), line)?.is_empty(), "{line}");
    }
    assert!(rt; why_refused(rt.alloc(), &[]).is_err());
    Ok(())
}
