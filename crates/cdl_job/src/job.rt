// The words of the command line.
ghost use Rattle.std.specs.Prelude.{◌≡◌, ◌+◌, ◌-◌, ◌*◌, ◌^◌, ◌<◌, map, string_bytes, IfSome};
ghost use Rattle.std.specs.Option.{option_map};
ghost use Rattle.cdl_job.specs.Outcome.{HasFewModels, HasSomeModels};
ghost use Rattle.cdl_job.specs.Job.{is_class_name, is_file_name, are_models, sample_size, task_of, check_of, run_of, cxf_of, check_cxf_of, run_cxf_of, sample_of, task_of_job};

use cdl_source::{MOST_MODELS, is_digit, is_identifier};

// The greatest size of a sample.
const LARGEST_SAMPLE: u32 = 2000;

/// What the words ask for: one variant for each verb.
///
/// A class is a full name of identifiers with points between them, a model, a table and a document are names of files,
/// and `n` is from 1 to 2000.
#[derive(Clone, Copy, Debug)]
pub enum Job<'a> {
    Check {
        class: &'a str,
        models: &'a [String],
    },
    Run {
        class: &'a str,
        table: &'a str,
        models: &'a [String],
    },
    Cxf {
        class: &'a str,
        models: &'a [String],
    },
    CheckCxf {
        doc: &'a str,
    },
    RunCxf {
        table: &'a str,
        doc: &'a str,
    },
    Sample {
        n: u32,
    },
}

/// The job of these words, the ones after the program's name; None exactly where they are no job. It takes no memory.
pub fn words(words: &[String]) -> Option<Job<'_>>
    ensures task { option_map task_of_job result ≡ task_of (map string_bytes words.now) }
    ensures few { IfSome result HasFewModels }
    ensures some { IfSome result HasSomeModels }
{
    match words {
        [] => None,
        [verb, rest @ ..] => match verb.as_str() {
            "check" => check_job(rest),
            "run" => run_job(rest),
            "cxf" => cxf_job(rest),
            "checkcxf" => check_cxf_job(rest),
            "runcxf" => run_cxf_job(rest),
            "sample" => sample_job(rest),
            _ => None,
        },
    }
}

fn check_job(words: &[String]) -> Option<Job<'_>>
    ensures task { option_map task_of_job result ≡ check_of (map string_bytes words.now) }
    ensures few { IfSome result HasFewModels }
    ensures some { IfSome result HasSomeModels }
{
    match words {
        [class, models @ ..] if is_class(class) && are_files(models) => Some(Job::Check {
            class: class.as_str(),
            models,
        }),
        _ => None,
    }
}

fn run_job(words: &[String]) -> Option<Job<'_>>
    ensures task { option_map task_of_job result ≡ run_of (map string_bytes words.now) }
    ensures few { IfSome result HasFewModels }
    ensures some { IfSome result HasSomeModels }
{
    match words {
        [class, table, models @ ..] if is_class(class) && is_file(table) && are_files(models) => {
            Some(Job::Run {
                class: class.as_str(),
                table: table.as_str(),
                models,
            })
        }
        _ => None,
    }
}

fn cxf_job(words: &[String]) -> Option<Job<'_>>
    ensures task { option_map task_of_job result ≡ cxf_of (map string_bytes words.now) }
    ensures few { IfSome result HasFewModels }
    ensures some { IfSome result HasSomeModels }
{
    match words {
        [class, models @ ..] if is_class(class) && are_files(models) => Some(Job::Cxf {
            class: class.as_str(),
            models,
        }),
        _ => None,
    }
}

fn check_cxf_job(words: &[String]) -> Option<Job<'_>>
    ensures task { option_map task_of_job result ≡ check_cxf_of (map string_bytes words.now) }
    ensures few { IfSome result HasFewModels }
    ensures some { IfSome result HasSomeModels }
{
    match words {
        [doc] if is_file(doc) => Some(Job::CheckCxf { doc: doc.as_str() }),
        _ => None,
    }
}

fn run_cxf_job(words: &[String]) -> Option<Job<'_>>
    ensures task { option_map task_of_job result ≡ run_cxf_of (map string_bytes words.now) }
    ensures few { IfSome result HasFewModels }
    ensures some { IfSome result HasSomeModels }
{
    match words {
        [table, doc] if is_file(table) && is_file(doc) => Some(Job::RunCxf {
            table: table.as_str(),
            doc: doc.as_str(),
        }),
        _ => None,
    }
}

fn sample_job(words: &[String]) -> Option<Job<'_>>
    ensures task { option_map task_of_job result ≡ sample_of (map string_bytes words.now) }
    ensures few { IfSome result HasFewModels }
    ensures some { IfSome result HasSomeModels }
{
    match words {
        [n] => number(n.as_bytes()).map(|n| Job::Sample { n }),
        _ => None,
    }
}

// The size of a sample: 1 to 2000, in digits without a leading zero.
fn number(digits: &[u8]) -> Option<u32>
    ensures { result ≡ sample_size digits.now }
{
    if digits.is_empty() || digits[0] == b'0' {
        return None;
    }
    let mut n = 0u32;
    for digit in digits {
        if !is_digit(*digit) || n > LARGEST_SAMPLE {
            return None;
        }
        n = 10 * n + u32::from(*digit - b'0');
    }
    if n < 1 || n > LARGEST_SAMPLE {
        return None;
    }
    Some(n)
}

fn is_file(word: &String) -> bool
    ensures { result ≡ is_file_name (string_bytes word.now) }
{
    !word.is_empty()
}

fn are_files(words: &[String]) -> bool
    ensures { result ≡ are_models (map string_bytes words.now) }
{
    if words.is_empty() || words.len() > MOST_MODELS {
        return false;
    }
    words.iter().all(is_file)
}

fn is_class(word: &String) -> bool
    ensures { result ≡ is_class_name (string_bytes word.now) }
{
    word.as_bytes()
        .split(|c| *c == b'.')
        .all(|name| is_identifier(name))
}
