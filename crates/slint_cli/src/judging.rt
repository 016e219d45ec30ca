ghost use Rattle.std.specs.Prelude.{◌≡◌, ◌<◌, ◌^◌, ℕ, IfOk, None, if◌then◌else◌, length};
ghost use Rattle.std.specs.Option.{option_copied};
ghost use Rattle.source_lines.specs.Starts.{place_by};
ghost use Rattle.io_edge.specs.Counts.{IsQuiet};
ghost use Rattle.command_words.specs.Words.{words_seen};
ghost use Rattle.import_resolver.specs.Ends.{IsRefusal, LoadCount};
ghost use Rattle.import_resolver.specs.Loaded.{rows_of};
ghost use Rattle.slint_base.specs.declared.rules.Rule.TheVariants.{FileMissing, NotBuilt};
ghost use Rattle.first_evaluator.specs.First.{first_source};
ghost use Rattle.slint_meaning.specs.Verdicts.{IsSound, at_main, first_alone, refusal_in};
ghost use Rattle.slint_cli.specs.Verdicts.{Checks, FewLines, IsNoMiss, Judges, Says};

use command_words::Words;
use first_evaluator::{Component, component_of};
use import_resolver::{LoadEnd, Loaded, SourceFile, load};
use io_edge::Files;
use loop_check::check_purity;
use slint_base::{End, Fault, Memory, Name, Place, Refusal, Rule, Text};
use source_faults::{no_fault_misses_a_file, no_impurity_misses_a_file};
use source_lines::place_by;
use std::alloc::Global;
use type_resolver::resolve;

/// The refusal of a source as a whole, for this rule: at the start of its main file.
fn at_main(alloc: Global, rule: Rule, main: &str) -> Result<Refusal, Memory>
    ensures { IfOk result (λ refusal. refusal ≡ at_main rule main.now) }
{
    let file = Text::from_str(alloc, main)?;
    let start = Place { line: 1, column: 1 };
    Ok(Refusal {
        rule,
        file,
        from: start,
        to: start,
    })
}

/// The refusal for a fault in a file of this name.
fn refusal_at(alloc: Global, name: &str, file: &SourceFile, fault: Fault) -> Result<Refusal, Memory>
    requires few { length file.now.line_starts.items < 2 ^ 32 }
    ensures { IfOk result (λ refusal. refusal ≡ record {
      rule = fault.rule;
      file = name.now;
      from = place_by file.now.line_starts.items fault.span.start;
      to = place_by file.now.line_starts.items fault.span.end;
    }) }
{
    let from = place_by(file.line_starts.as_slice(), fault.span.start);
    let to = place_by(file.line_starts.as_slice(), fault.span.end);
    let file = Text::from_str(alloc, name)?;
    Ok(Refusal {
        rule: fault.rule,
        file,
        from,
        to,
    })
}

/// The refusal for a fault of a loaded source.
fn refusal_in(alloc: Global, loaded: &Loaded, main: &str, fault: Fault) -> Result<Refusal, Memory>
    requires few { FewLines (rows_of loaded.now) }
    ensures { IfOk result (λ refusal. refusal ≡ refusal_in main.now (rows_of loaded.now) fault) }
{
    match loaded.files.get_index(fault.span.file as usize) {
        Some((name, file)) => refusal_at(alloc, name.as_str(), file, fault),
        None => at_main(alloc, fault.rule, main),
    }
}

/// Refuses a loaded source for a fault, which is none of a missing file: a loaded source lacks none.
fn refuse(alloc: Global, loaded: &Loaded, main: &str, fault: Fault) -> LoadEnd
    requires few { FewLines (rows_of loaded.now) }
    requires other { fault.rule ≡ FileMissing → ⊥ }
    ensures is { IsRefusal (refusal_in main.now (rows_of loaded.now) fault) result }
    ensures other { IsNoMiss result }
{
    match refusal_in(alloc, loaded, main, fault) {
        Ok(refusal) => LoadEnd::Refused(refusal),
        Err(Memory) => LoadEnd::Memory,
    }
}

/// Refuses a source as a whole, since it isn't in the language as far as it is run.
fn not_built(alloc: Global, main: &str) -> LoadEnd
    ensures is { IsRefusal (at_main NotBuilt main.now) result }
    ensures other { IsNoMiss result }
{
    match at_main(alloc, Rule::NotBuilt, main) {
        Ok(refusal) => LoadEnd::Refused(refusal),
        Err(Memory) => LoadEnd::Memory,
    }
}

/// Whether a loaded source keeps the rules on names, types and purity: its first fault, if it has one.
fn check_source(alloc: Global, loaded: &Loaded, named: Option<&Name>) -> Result<(), End<Fault>>
    ensures { Checks (rows_of loaded.now) (option_copied named.entry) result }
{
    match resolve(alloc, loaded, named) {
        Ok(tree) => check_purity(alloc, &tree),
        Err(end) => Err(end),
    }
}

/// The component of a source of one file; none where there are more, and where the source is outside the language as far as it is run.
fn first_component(alloc: Global, loaded: &Loaded) -> Result<Option<Component>, Memory>
    ensures { IfOk result (λ found. found ≡ first_alone (rows_of loaded.now)) }
{
    match loaded.files.as_slice().split_first() {
        Some(((_name, file), others)) => component_alone(alloc, file, others.is_empty()),
        None => Ok(None),
    }
}

/// The component of a file, where it is alone.
fn component_alone(
    alloc: Global,
    file: &SourceFile,
    is_alone: bool,
) -> Result<Option<Component>, Memory>
    ensures { IfOk result (λ found. found ≡ (if is_alone then first_source file.now.tree else None)) }
{
    if is_alone {
        component_of(alloc, &file.tree)
    } else {
        Ok(None)
    }
}

/// The component of a source that keeps the rules.
fn judge_sound(alloc: Global, words: &Words, loaded: &Loaded) -> Result<Component, LoadEnd>
    requires sound { IsSound (rows_of loaded.now) words.now.component }
    ensures says { Says words.now.file words.now.component (rows_of loaded.now) result }
    ensures still { (faults misses : ℕ) → LoadCount result faults faults misses misses }
{
    match first_component(alloc, loaded) {
        Ok(Some(component)) => Ok(component),
        Ok(None) => Err(not_built(alloc, words.file.as_str())),
        Err(Memory) => Err(LoadEnd::Memory),
    }
}

/// The component of a loaded source, the first file of which is the main one.
fn judge_files(alloc: Global, words: &Words, loaded: &Loaded) -> Result<Component, LoadEnd>
    requires few { FewLines (rows_of loaded.now) }
    ensures says { Says words.now.file words.now.component (rows_of loaded.now) result }
    ensures still { (faults misses : ℕ) → LoadCount result faults faults misses misses }
{
    no_fault_misses_a_file();
    no_impurity_misses_a_file();
    match check_source(alloc, loaded, words.component.as_ref()) {
        Ok(()) => judge_sound(alloc, words, loaded),
        Err(End::Fault(fault)) => Err(refuse(alloc, loaded, words.file.as_str(), fault)),
        Err(End::Memory) => Err(LoadEnd::Memory),
    }
}

/// The component that the words ask for, ready to be evaluated.
///
/// # Errors
///
/// `Refused` with the first fault of the files; then with the first fault of names, types or purity, that of a main file without such a component among them; and
/// where the source is outside the language as far as it is run. `ReadFault` where a file couldn't be read; `Memory`.
pub(crate) fn judge<F: Files>(
    alloc: Global,
    files: &mut F,
    words: &Words,
) -> Result<Component, LoadEnd>
    ensures judged { Judges (F.held files.old) (words_seen words.now) result }
    ensures counted { LoadCount result (F.faults files.old) (F.faults files.new) (F.misses files.old) (F.misses files.new) }
    ensures same_map { F.held files.new ≡ F.held files.old }
    ensures steady { F.is_steady files.old → IsQuiet (F.is_steady files.new) (F.faults files.old) (F.faults files.new) }
{
    let loaded = load(alloc, files, words.file.as_str())?;
    judge_files(alloc, words, &loaded)
}
