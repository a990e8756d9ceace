// What natix says of itself.
ghost use Rattle.std.specs.Prelude.{◌≡◌};
ghost use Rattle.nx_program.specs.Help.{question_of};

use nx_front::Words;

/// What may be asked of natix itself.
#[derive(Clone, Copy)]
pub enum Question {
    /// How it is called.
    Help,
    /// Which one it is.
    Version,
}

const HELP: &str = "\
natix keeps XML documents, written as lines of PYX, in stores that crashes leave
whole, and cuts them into as few parts as possible.

Usage: natix STORE COMMAND [ARG]...

  natix STORE init K          make a store whose parts weigh at most K, 1 to 256;
                              K may be followed by TARGET, TOLERANCE and PAGES
  natix STORE run             carry out a script: load, drop, rename, export,
                              insert, delete, retext, get, names, layout, rule,
                              rules, checkpoint; from begin to commit as one
  natix STORE find            answer questions for nodes by name
  natix STORE ask WORKERS     answer a script's questions by 1 to 64 threads
  natix STORE check           say whether the store is sound
  natix STORE ship FROM       write what was committed from a number on, or all
  natix STORE apply           commit what another store shipped
  natix STORE gen SEED N      try the store with N drawn changes

  natix _ tidy                write a document in its canonical form
  natix _ plan K              write how to cut a document into the fewest parts
  natix _ verify K            certify a plan that follows its document

  natix --help                say this
  natix --version             say which natix this is, and its formats

STORE is a file, beside which STORE.log is its log; no name ends in .log.
A command reads standard input and writes standard output.

Exit status: 0 done, 1 usage, 2 refused, 3 disk fault, 4 read fault, 5 write
fault, 6 out of memory, 7 not a store, 8 damaged page, 9 too much input.
";

// A package's version begins with this number, by tools/package, and goes on with the day and the commit.
const VERSION: &str = "\
natix 0
stores  of the formats 1 and 2 are read, and format 2 is written
commit  not known to the program; a package has it in /usr/share/doc/natix/BUILD
";

// What the words ask of natix itself, where they do.
pub fn question_of(words: &Words) -> Option<Question>
    ensures { result ≡ question_of words.now }
{
    match words.as_slice() {
        [word] => match word.as_str() {
            "--help" => Some(Question::Help),
            "--version" => Some(Question::Version),
            _ => None,
        },
        _ => None,
    }
}

// The text that answers it.
pub fn answer(question: Question) -> &'static str {
    match question {
        Question::Help => HELP,
        Question::Version => VERSION,
    }
}
