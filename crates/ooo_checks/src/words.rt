use ooo_words::{WordsError, read, refusal};
use std::alloc::Global;
use std::test::Fail;

/// Rows of words, between bars, and the command or the refusal that they give, without its line end.
static ROWS: &str = "
run => Run { options: RunOptions { stop: None, deltas: 10000, statements: 1000000 }, workers: 1 }
plain => Plain(RunOptions { stop: None, deltas: 10000, statements: 1000000 })
check => Check
tables => Tables
bench => Bench { stages: 4, items: 16, seed: 1, workers: 1 }
fast => refused words UnknownCommand fast
Run => refused words UnknownCommand Run
runs => refused words UnknownCommand runs
run=1 => refused words UnknownCommand run=1
--stop|5ns|run => refused words UnknownCommand --stop
help => refused words UnknownCommand help
run|--fast => refused words UnknownOption --fast
run|--fast=1 => refused words UnknownOption --fast
run|--help => refused words UnknownOption --help
run|-h => refused words UnknownOption -h
run|-- => refused words UnknownOption --
run|stop|5ns => refused words UnknownOption stop
run|--sto=5ns => refused words UnknownOption --sto
run|--Stop|5ns => refused words UnknownOption --Stop
run|--seed|1 => refused words UnknownOption --seed
plain|--workers|1 => refused words UnknownOption --workers
check|--stop|5ns => refused words UnknownOption --stop
tables|x => refused words UnknownOption x
bench|--deltas=5 => refused words UnknownOption --deltas
run|--stop|5ns|extra => refused words UnknownOption extra
check|check => refused words UnknownOption check
run|--stop|5ns => Run { options: RunOptions { stop: Some(Time(5000)), deltas: 10000, statements: 1000000 }, workers: 1 }
plain|--stop=0ns => Plain(RunOptions { stop: Some(Time(0)), deltas: 10000, statements: 1000000 })
plain|--stop|7ps => Plain(RunOptions { stop: Some(Time(7)), deltas: 10000, statements: 1000000 })
plain|--stop|7us => Plain(RunOptions { stop: Some(Time(7000000)), deltas: 10000, statements: 1000000 })
plain|--stop|7ms => Plain(RunOptions { stop: Some(Time(7000000000)), deltas: 10000, statements: 1000000 })
plain|--stop|7s => Plain(RunOptions { stop: Some(Time(7000000000000)), deltas: 10000, statements: 1000000 })
run|--stop|4611686018427387903ps => Run { options: RunOptions { stop: Some(Time(4611686018427387903)), deltas: 10000, statements: 1000000 }, workers: 1 }
run|--stop|4611686018427387904ps => refused words BadValue --stop
run|--stop|4611686s => Run { options: RunOptions { stop: Some(Time(4611686000000000000)), deltas: 10000, statements: 1000000 }, workers: 1 }
run|--stop|4611687s => refused words BadValue --stop
run|--stop|9999999999999999999s => refused words BadValue --stop
run|--stop|10000000000000000000ps => refused words BadValue --stop
run|--stop|00000000000000000005ps => refused words BadValue --stop
run|--stop|5 => refused words BadValue --stop
run|--stop|ns => refused words BadValue --stop
run|--stop|007ns => refused words BadValue --stop
run|--stop|00ns => refused words BadValue --stop
run|--stop|5 ns => refused words BadValue --stop
run|--stop|5NS => refused words BadValue --stop
run|--stop|5fs => refused words BadValue --stop
run|--stop|-5ns => refused words BadValue --stop
run|--stop|+5ns => refused words BadValue --stop
run|--stop| => refused words BadValue --stop
run|--stop= => refused words BadValue --stop
run|--stop=5ns= => refused words BadValue --stop
run|--stop => refused words NoValue --stop
run|--workers=64 => Run { options: RunOptions { stop: None, deltas: 10000, statements: 1000000 }, workers: 64 }
run|--workers|65 => refused words BadValue --workers
run|--workers|064 => refused words BadValue --workers
run|--workers|0 => refused words BadValue --workers
run|--workers|1x => refused words BadValue --workers
run|--workers|+1 => refused words BadValue --workers
run|--workers|--deltas|5 => refused words BadValue --workers
run|--deltas|1000000 => Run { options: RunOptions { stop: None, deltas: 1000000, statements: 1000000 }, workers: 1 }
run|--deltas|1000001 => refused words BadValue --deltas
run|--deltas|0 => refused words BadValue --deltas
run|--deltas= => refused words BadValue --deltas
plain|--statements=1000000000 => Plain(RunOptions { stop: None, deltas: 10000, statements: 1000000000 })
plain|--statements=1000000001 => refused words BadValue --statements
plain|--statements|00 => refused words BadValue --statements
bench|--stages|200|--items=10000 => Bench { stages: 200, items: 10000, seed: 1, workers: 1 }
bench|--stages|201 => refused words BadValue --stages
bench|--items|10001 => refused words BadValue --items
bench|--seed|0 => Bench { stages: 4, items: 16, seed: 0, workers: 1 }
bench|--seed|4294967295 => Bench { stages: 4, items: 16, seed: 4294967295, workers: 1 }
bench|--seed|4294967296 => refused words BadValue --seed
bench|--seed|99999999999 => refused words BadValue --seed
bench|--workers=8|--seed|3|--items|5|--stages=2 => Bench { stages: 2, items: 5, seed: 3, workers: 8 }
run|--statements|9|--deltas=8|--workers|7|--stop=6us => Run { options: RunOptions { stop: Some(Time(6000000)), deltas: 8, statements: 9 }, workers: 7 }
run|--stop|5ns|--stop=6ns => refused words Twice --stop
run|--stop=5ns|--stop|6ns => refused words Twice --stop
run|--workers|1|--workers => refused words Twice --workers
run|--workers|1|--workers=x => refused words Twice --workers
run|--workers|0|--workers|1 => refused words BadValue --workers
run|--deltas=x|--fast => refused words BadValue --deltas
run|--fast|--deltas=x => refused words UnknownOption --fast
run|--stop|5ns|--deltas => refused words NoValue --deltas
";

/// What the words are read as.
fn answer(alloc: Global, words: &[String]) -> Result<String, Fail> {
    match read(alloc, words) {
        Ok(command) => Ok(format!(in alloc; "{command:?}")?),
        Err(WordsError::OutOfMemory) => Err(Fail::from("out of memory")),
        Err(error) => Ok(String::from_utf8(refusal(alloc, &error)?)?),
    }
}

/// The words between the bars of a text.
fn words_of(alloc: Global, text: &str) -> Result<Vec<String>, Fail> {
    let mut words = Vec::new(alloc);
    for word in text.split('|') {
        words.push(String::from_str(alloc, word)?)?;
    }
    Ok(words)
}

// Whether words give an answer, of which a refusal ends its line.
fn is_so(alloc: Global, words: &str, wanted: &str) -> Result<bool, Fail> {
    let words = words_of(alloc, words)?;
    let found = answer(alloc, &words)?;
    match found.as_str().strip_suffix("\n") {
        Some(line) => Ok(line == wanted && wanted.starts_with("refused ")),
        None => Ok(found.as_str() == wanted && !wanted.starts_with("refused ")),
    }
}

#[test]
fn reads_words(rt: HostRuntime) -> Result<(), Fail> {
    for row in ROWS.lines() {
        if let Some((words, wanted)) = row.split_once(" => ") {
            assert!(rt; is_so(rt.alloc(), words, wanted)?, "of {row}");
        }
    }
    Ok(())
}

#[test]
fn tells_empty_words_as_they_are(rt: HostRuntime) -> Result<(), Fail> {
    let alloc = rt.alloc();
    for (words, wanted) in [
        ("", "refused words UnknownCommand \n"),
        ("run|", "refused words UnknownOption \n"),
        ("run|=5ns", "refused words UnknownOption \n"),
    ] {
        let words = words_of(alloc, words)?;
        let found = answer(alloc, &words)?;
        assert_eq!(rt; found.as_str(), wanted);
    }
    Ok(())
}

#[test]
fn refuses_no_words(rt: HostRuntime) -> Result<(), Fail> {
    let found = answer(rt.alloc(), &[])?;
    assert_eq!(rt; found.as_str(), "refused words NoCommand\n");
    Ok(())
}
