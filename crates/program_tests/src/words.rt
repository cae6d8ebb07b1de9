// What no clause says: that memory is enough, over words of an independent program.
use command_words::kinds::{COMMAND, EXTRA, MISSING, NAME, NUMBER, RANGE, REPEATED, SAME_NAME};
use command_words::{Code, Command, How, Map, WordFault, WordsErr, read_words};
use std::alloc::{AllocError, Global};
use std::process::Abort;
use std::test::Fail;

// The words of a line, each a text of its own.
fn read_line(alloc: Global, line: &str) -> Result<Result<Command, WordsErr>, AllocError> {
    let mut words = Vec::new(alloc);
    for word in line.split_whitespace() {
        words.push(String::from_str(alloc, word)?)?;
    }
    Ok(read_words(alloc, &words))
}

// Each faulty line, with the number of its first faulty word and the kind of the fault.
const FAULTY: [(&str, u64, u8); 57] = [
    ("", 0, MISSING),
    ("pilots", 1, MISSING),
    ("pilots K x", 2, NAME),
    ("pilots K x=1", 2, NAME),
    ("pilots K =", 2, NAME),
    ("pilots K alpha", 2, NAME),
    ("pilots K alpha=", 2, NUMBER),
    ("pilots K alpha=49", 2, RANGE),
    ("pilots K alpha=101", 2, RANGE),
    ("pilots K alpha=098", 2, NUMBER),
    ("pilots K alpha=+98", 2, NUMBER),
    ("pilots K alpha=98 alpha=98", 3, REPEATED),
    ("pilots K alpha=98 alpha=x", 3, REPEATED),
    ("pilots K alpha=x alpha=98", 2, NUMBER),
    ("pilots K Alpha=98", 2, NAME),
    ("pilots K alpha=98=1", 2, NUMBER),
    ("pilots K c=99", 2, RANGE),
    ("pilots K c=1501", 2, RANGE),
    ("pilots K map=flat", 2, RANGE),
    ("pilots K map=", 2, RANGE),
    ("pilots K map", 2, NAME),
    ("pilots K map=Uniform", 2, RANGE),
    ("pilots K map=uniform map=uniform", 3, REPEATED),
    ("pilots K map=uniform map=flat", 3, REPEATED),
    ("pilots K alpha=x map=flat", 2, NUMBER),
    ("pilots K map=flat alpha=x", 2, RANGE),
    ("pilots K map=skewed,uniform", 2, RANGE),
    ("pilots K maps=uniform", 2, NAME),
    ("pilots K parts=0", 2, RANGE),
    ("pilots K parts=4097", 2, RANGE),
    ("pilots K workers=0", 2, RANGE),
    ("pilots K workers=65", 2, RANGE),
    ("pilots K search=alone", 2, RANGE),
    ("pilots K search=", 2, RANGE),
    ("pilots K enc=d-", 2, RANGE),
    ("pilots K enc=-d", 2, RANGE),
    ("pilots K enc=d-d-d", 2, RANGE),
    ("pilots K enc=D", 2, RANGE),
    ("pilots K pilots=0", 2, RANGE),
    ("pilots K pilots=4294967296", 2, RANGE),
    ("pilots K pilots=18446744073709551616", 2, NUMBER),
    ("pilots K blocks=65537", 2, RANGE),
    ("pilots K limit=0", 2, RANGE),
    ("pilots K limit=67108865", 2, RANGE),
    ("pilots K seeds=", 2, NUMBER),
    ("pilots K seeds=1,", 2, NUMBER),
    ("pilots K seeds=,1", 2, NUMBER),
    ("pilots K seeds=1,,2", 2, NUMBER),
    ("pilots K seeds=01", 2, NUMBER),
    ("pilots K seeds=18446744073709551616", 2, NUMBER),
    (
        "pilots K seeds=1,2,3,4,5,6,7,8,9,10,11,12,13,14,15,16,17",
        2,
        RANGE,
    ),
    (
        "pilots K seeds=1,2,3,4,5,6,7,8,9,10,11,12,13,14,15,16,x",
        2,
        NUMBER,
    ),
    ("pilots K seeds=1 beta=1 alpha=1", 3, NAME),
    ("pilots K alpha=1 beta=1", 2, RANGE),
    ("Pilots K", 0, COMMAND),
    ("sort", 0, COMMAND),
    ("--help", 0, COMMAND),
];

// The same of the commands on two files.
const FAULTY_OF_TWO: [(&str, u64, u8); 29] = [
    ("build", 1, MISSING),
    ("build K", 2, MISSING),
    ("build K I alpha=49", 3, RANGE),
    ("build K I alpha=98 alpha=98", 4, REPEATED),
    ("build K I beta=1", 3, NAME),
    ("build K I alpha=098", 3, NUMBER),
    ("build K I map=flat", 3, RANGE),
    ("build K K", 1, SAME_NAME),
    ("build I.tmp I", 1, SAME_NAME),
    ("build I.part I", 1, SAME_NAME),
    ("build I.part0 I", 1, SAME_NAME),
    ("build I.partition I seeds=1", 1, SAME_NAME),
    ("build I I alpha=49", 3, RANGE),
    ("query", 1, MISSING),
    ("query I", 2, MISSING),
    ("query I Q x", 3, EXTRA),
    ("query I Q x y", 3, EXTRA),
    ("check", 1, MISSING),
    ("check I", 2, MISSING),
    ("check I K x", 3, EXTRA),
    ("check K I alpha=98", 3, EXTRA),
    ("upgrade", 1, MISSING),
    ("upgrade K", 2, MISSING),
    ("upgrade I K x", 3, EXTRA),
    ("upgrade I I I I", 3, EXTRA),
    ("upgrade I I alpha=49", 3, EXTRA),
    ("upgrade K K", 2, SAME_NAME),
    ("upgrade I I.tmp", 2, SAME_NAME),
    ("Build K I", 0, COMMAND),
];

// The same of the other commands.
const FAULTY_OF_OTHERS: [(&str, u64, u8); 16] = [
    ("stats", 1, MISSING),
    ("stats I x", 2, EXTRA),
    ("stats I x=1 y", 2, EXTRA),
    ("demo", 1, MISSING),
    ("demo x", 2, MISSING),
    ("demo 0", 2, MISSING),
    ("demo x x", 1, NUMBER),
    ("demo 01 1", 1, NUMBER),
    ("demo 0 1", 1, RANGE),
    ("demo 1000001 x", 1, RANGE),
    ("demo 18446744073709551616 1", 1, NUMBER),
    ("demo 1000000 x", 2, NUMBER),
    ("demo 1 01", 2, NUMBER),
    ("demo 1 18446744073709551616", 2, NUMBER),
    ("demo 1 x y", 2, NUMBER),
    ("demo 1 1 1", 3, EXTRA),
];

#[test]
fn the_first_faulty_word_is_named(rt: HostRuntime) -> Result<(), Fail> {
    are_faulty(&rt, &FAULTY)?;
    are_faulty(&rt, &FAULTY_OF_TWO)?;
    are_faulty(&rt, &FAULTY_OF_OTHERS)
}

// Each line has its first faulty word and the kind of its fault.
fn are_faulty<R: Abort + AllocGlobal>(rt: &R, lines: &[(&str, u64, u8)]) -> Result<(), Fail> {
    for &(line, word, kind) in lines {
        match read_line(rt.alloc(), line)? {
            Err(WordsErr::Bad(fault)) => {
                assert_eq!(rt; fault, WordFault { word, kind }, "{line}");
            }
            Err(WordsErr::NoMemory) => return Err(Fail::from("no memory")),
            Ok(_) => return Err(Fail::from("a faulty line is accepted")),
        }
    }
    Ok(())
}

#[test]
fn settings_that_no_word_gives_are_as_by_default(rt: HostRuntime) -> Result<(), Fail> {
    let Ok(Command::Pilots { keys, options }) = read_line(rt.alloc(), "pilots K")? else {
        return Err(Fail::from("a good line is refused"));
    };
    assert_eq!(&rt; keys.as_str(), "K");
    assert_eq!(&rt;
        options.settings.seeds.as_slice(),
        [1, 2, 3, 4, 5, 6, 7, 8].as_slice()
    );
    assert_eq!(&rt;
        (options.settings.shape.alpha, options.settings.shape.c),
        (98, 700)
    );
    assert_eq!(&rt; options.settings.shape.map, Map::Skewed);
    assert_eq!(&rt;
        (options.settings.parts, options.settings.limit),
        (1, 16_777_216)
    );
    assert_eq!(&rt; options.settings.how, How::Turns(4));
    assert_eq!(&rt;
        (options.enc.front, options.enc.back),
        (Code::Dict, Some(Code::Dict))
    );
    assert_eq!(&rt; (options.blocks, options.most), (0, 67_108_864));
    Ok(())
}

#[test]
fn settings_are_as_words_give_them(rt: HostRuntime) -> Result<(), Fail> {
    let line = "pilots K limit=1 blocks=65536 pilots=4294967295 enc=pc-ef search=rounds workers=64 \
        parts=4096 map=uniform c=1500 alpha=50 seeds=0,18446744073709551615";
    let Ok(Command::Pilots { options, .. }) = read_line(rt.alloc(), line)? else {
        return Err(Fail::from("a good line is refused"));
    };
    assert_eq!(&rt; options.settings.seeds.as_slice(), [0, u64::MAX].as_slice());
    assert_eq!(&rt;
        (options.settings.shape.alpha, options.settings.shape.c),
        (50, 1500)
    );
    assert_eq!(&rt; options.settings.shape.map, Map::Uniform);
    assert_eq!(&rt;
        (options.settings.parts, options.settings.limit),
        (4096, 4_294_967_295)
    );
    assert_eq!(&rt; options.settings.how, How::Rounds(64));
    assert_eq!(&rt;
        (options.enc.front, options.enc.back),
        (Code::Parted, Some(Code::EliasFano))
    );
    assert_eq!(&rt; (options.blocks, options.most), (65536, 1));
    Ok(())
}

#[test]
fn names_are_kept_as_they_stand(rt: HostRuntime) -> Result<(), Fail> {
    for (line, names) in [
        ("build I.par I", ("I.par", "I")),
        ("build I .tmp", ("I", ".tmp")),
        ("build I.t I.tmp", ("I.t", "I.tmp")),
    ] {
        let Ok(Command::Build { keys, index, .. }) = read_line(rt.alloc(), line)? else {
            return Err(Fail::from("a good line is refused"));
        };
        assert_eq!(&rt; (keys.as_str(), index.as_str()), names);
    }
    for (line, names) in [
        ("upgrade I.tmp I", ("I.tmp", "I")),
        ("upgrade I I.part0", ("I", "I.part0")),
        ("upgrade I I.tm", ("I", "I.tm")),
        ("upgrade I .tmp", ("I", ".tmp")),
    ] {
        let Ok(Command::Upgrade { index, keys }) = read_line(rt.alloc(), line)? else {
            return Err(Fail::from("a good line is refused"));
        };
        assert_eq!(&rt; (index.as_str(), keys.as_str()), names);
    }
    let Ok(Command::Query { index, queries }) = read_line(rt.alloc(), "query I I")? else {
        return Err(Fail::from("a good line is refused"));
    };
    assert_eq!(&rt; (index.as_str(), queries.as_str()), ("I", "I"));
    let Ok(Command::Stats { index }) = read_line(rt.alloc(), "stats alpha=1")? else {
        return Err(Fail::from("a good line is refused"));
    };
    assert_eq!(&rt; index.as_str(), "alpha=1");
    Ok(())
}

#[test]
fn the_numbers_of_a_demonstration_are_kept(rt: HostRuntime) -> Result<(), Fail> {
    for (line, numbers) in [
        ("demo 1 0", (1, 0)),
        ("demo 1000000 18446744073709551615", (1_000_000, u64::MAX)),
    ] {
        let Ok(Command::Demo(demo)) = read_line(rt.alloc(), line)? else {
            return Err(Fail::from("a good line is refused"));
        };
        assert_eq!(&rt; (demo.count, demo.seed), numbers);
    }
    Ok(())
}
