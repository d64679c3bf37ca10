//! Every form of a command's words, and words near each.
use rx_words::{WordsFault, read_words};
use std::alloc::Global;
use std::test::Fail;

// Each command with an operand that it has.
const COMMANDS: [(&str, &str); 5] = [
    ("check", "P"),
    ("decode", "P::M"),
    ("encode", "P::M"),
    ("run", "P::S"),
    ("load", "7"),
];

// Words that each command has: `@` stands for the command, and `$` for the operand.
const FORMS: [&[&str]; 12] = [
    &["@", "$"],
    &["@", "--", "$"],
    &["@", "$", "--"],
    &["@", "--splits", "1", "$"],
    &["@", "--splits=1", "$"],
    &["@", "$", "--splits", "4096"],
    &["@", "$", "--splits=4096"],
    &["@", "--splits", "5", "--", "$"],
    &["@", "--splits=5", "--", "$"],
    &["@", "--splits", "5", "$", "--"],
    &["@", "$", "--splits", "5", "--"],
    &["@", "$", "--splits=5", "--"],
];

// Words that no command has.
const NEAR: [&[&str]; 66] = [
    // the command: none, empty, twice, behind another word, in other letters, cut off, help
    &[],
    &[""],
    &["$"],
    &["$", "@"],
    &["", "@", "$"],
    &["--", "@", "$"],
    &["--splits", "5", "@", "$"],
    &["--splits=5", "@", "$"],
    &["@", "@", "$"],
    &["chec", "$"],
    &["decod", "$"],
    &["Check", "P"],
    &["LOAD", "7"],
    &["chéck", "P"],
    &[" check", "P"],
    &["check P"],
    &["help"],
    &["help", "@"],
    &["-h"],
    &["--help"],
    &["-V"],
    &["--version"],
    &["@", "-h"],
    &["@", "--help"],
    &["@", "$", "-h"],
    &["@", "$", "--help"],
    &["@", "$", "help"],
    // the operand: none, empty, twice, an option's, not ASCII
    &["@"],
    &["@", ""],
    &["@", "--"],
    &["@", "--", ""],
    &["@", "$", ""],
    &["@", "", "$"],
    &["@", "$", "$"],
    &["@", "--", "$", "$"],
    &["@", "--", "--", "$"],
    &["@", "-"],
    &["@", "é"],
    &["@", "P::é"],
    &["@", "--splits", "5"],
    &["@", "--splits=5", "--"],
    // the option: twice, last, behind `--`, abbreviated, in other letters, joined
    &["@", "$", "--splits", "5", "--splits", "5"],
    &["@", "$", "--splits=5", "--splits=5"],
    &["@", "--splits", "5", "$", "--splits=5"],
    &["@", "$", "--splits"],
    &["@", "--splits", "$"],
    &["@", "--splits", "--", "$"],
    &["@", "--", "$", "--splits", "5"],
    &["@", "--", "$", "--splits=5"],
    &["@", "--", "--splits=5", "$"],
    &["@", "$", "--split", "5"],
    &["@", "$", "--s", "5"],
    &["@", "$", "-s", "5"],
    &["@", "$", "-splits", "5"],
    &["@", "$", "--Splits", "5"],
    &["@", "$", "--splits5"],
    &["@", "$", "--splits:5"],
    &["@", "$", "--spliés", "5"],
    // its value: empty, no number, past the limits, not ASCII
    &["@", "$", "--splits", ""],
    &["@", "$", "--splits="],
    &["@", "$", "--splits", "0"],
    &["@", "$", "--splits=4097"],
    &["@", "$", "--splits=05"],
    &["@", "$", "--splits= 5"],
    &["@", "$", "--splits==5"],
    &["@", "$", "--splits=５"],
];

// Words with a package to look in, which one command has.
const DEEP: [&[&str]; 4] = [
    &["decode", "P::M", "--deep", "Q"],
    &["decode", "--deep=Q", "P::M"],
    &["decode", "--deep", "Q", "--splits", "5", "--", "P::M"],
    &["decode", "P::M", "--splits=5", "--deep=Q", "--"],
];

// Words near those.
const NEAR_DEEP: [&[&str]; 14] = [
    &["check", "P", "--deep", "Q"],
    &["encode", "P::M", "--deep=Q"],
    &["run", "P::S", "--deep", "Q"],
    &["load", "7", "--deep=Q"],
    &["decode", "--deep", "Q"],
    &["decode", "P::M", "--deep"],
    &["decode", "P::M", "--deep", ""],
    &["decode", "P::M", "--deep="],
    &["decode", "P::M", "--deep", "Q::R"],
    &["decode", "P::M", "--deep", "é"],
    &["decode", "P::M", "--deep", "Q", "--deep", "Q"],
    &["decode", "P::M", "--deep=Q", "--deep", "R"],
    &["decode", "P::M", "--dee", "Q"],
    &["decode", "--", "P::M", "--deep", "Q"],
];

// The word that stands for a pattern's.
fn word_of<'a>(pattern: &'a str, command: &'a str, operand: &'a str) -> &'a str {
    match pattern {
        "@" => command,
        "$" => operand,
        _ => pattern,
    }
}

// Whether the words have a form, with this command and its operand.
fn have_form(alloc: Global, patterns: &[&str], command: &str, operand: &str) -> Result<bool, Fail> {
    let mut words: Vec<String> = Vec::new(alloc);
    for pattern in patterns {
        words.push(String::from_str(alloc, word_of(pattern, command, operand))?)?;
    }
    match read_words(alloc, &words) {
        Ok(_) => Ok(true),
        Err(WordsFault::Form) => Ok(false),
        Err(WordsFault::NoMemory) => Err(Fail::new("no memory")),
    }
}

#[test]
fn words_have_a_form_or_come_near_one(rt: HostRuntime) -> Result<(), Fail> {
    for (command, operand) in COMMANDS {
        for words in FORMS {
            assert!(rt;
                have_form(rt.alloc(), words, command, operand)?,
                "{command} {words:?}"
            );
        }
        for words in NEAR {
            assert!(rt;
                !have_form(rt.alloc(), words, command, operand)?,
                "{command} {words:?}"
            );
        }
    }
    for words in DEEP {
        assert!(rt; have_form(rt.alloc(), words, "", "")?, "{words:?}");
    }
    for words in NEAR_DEEP {
        assert!(rt; !have_form(rt.alloc(), words, "", "")?, "{words:?}");
    }
    Ok(())
}
