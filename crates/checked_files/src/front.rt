//! From the bytes of a file to its tree, and to its core file.
ghost use Rattle.std.specs.Prelude.{◌≡◌, ◌≢◌, ◌⊎◌, ◌≤◌, ◌^◌, List, ℕ, length, map, IfErr, IfOk, MatchResult};
ghost use Rattle.anvil_lexer.specs.declared.token.Token.{Token as SpelledToken};
ghost use Rattle.anvil_lexer.specs.TokenText.{AreClosed, ArePlacesRising, IsLexRefusal, IsTokenText};
ghost use Rattle.anvil_tree.specs.Few.{IsFew};
ghost use Rattle.anvil_tree.specs.Order.{ActsNeverFall};
ghost use Rattle.anvil_tree.specs.Tree as tree;
ghost use Rattle.anvil_tree.specs.View.{file_of};
ghost use Rattle.anvil_grammar.specs.Refusal.{IsAccepted, IsFirstRefusal};
ghost use Rattle.channel_classes.specs.Classes.{classes_of};
ghost use Rattle.core_file.specs.CoreFile.{core_file, placed_of};
ghost use Rattle.core_file.specs.IsCoreFile.{IsCoreFileOf};
ghost use Rattle.checked_files.specs.FileText.{IsChecked, IsCheckedText, IsFileText};
ghost use Rattle.checked_files.specs.Refused.{IsFileRefused, IsUnchecked, IsUnread, of_lexer, of_parser};

use crate::faults::{of_classes, of_lexer, of_parser, of_processes};
use anvil_lexer::{LexErr, Token, lex};
use anvil_parser::{ParseErr, parse};
use anvil_tree::File;
use channel_classes::read_classes;
use std::alloc::Global;
use tool_answers::Refusal;
use width_check::{CoreFile, resolve};

// The tokens of a file's bytes, or the lexer's first fault.
fn tokens_of(alloc: Global, bytes: &[u8]) -> Result<Vec<Token>, Refusal>
    requires { length bytes.now ≤ 2 ^ 20 }
    ensures tokens { IfOk result (λ tokens. IsTokenText bytes.now tokens.items) }
    ensures closed { IfOk result (λ tokens. AreClosed tokens.items) }
    ensures rising { IfOk result (λ tokens. ArePlacesRising tokens.items) }
    ensures every_text { (tokens : List SpelledToken) → IsTokenText bytes.now tokens
        → MatchResult result (λ found. found.items ≡ tokens) (λ refusal. refusal ≡ Refusal.NoMemory) }
    ensures refused { IfErr result (λ refusal. refusal ≢ Refusal.NoMemory → IsUnread bytes.now refusal) }
    ensures every_refusal { (fault : LexErr) → IsLexRefusal bytes.now fault
        → MatchResult result (λ _. ⊥) (λ refusal. (refusal ≡ of_lexer fault) ⊎ (refusal ≡ Refusal.NoMemory)) }
{
    match lex(alloc, bytes) {
        Ok(tokens) => Ok(tokens),
        Err(fault) => Err(of_lexer(&fault)),
    }
}

// The tree of tokens, or the parser's first refusal.
fn tree_of(alloc: Global, tokens: &[Token]) -> Result<File, Refusal>
    requires closed { AreClosed tokens.now }
    requires rising { ArePlacesRising tokens.now }
    ensures tree { IfOk result (λ file. IsAccepted tokens.now (file_of file)) }
    ensures few { IfOk result (λ file. IsFew (file_of file)) }
    ensures in_order { IfOk result (λ file. ActsNeverFall (file_of file)) }
    ensures every_file { (file : tree.File) → IsAccepted tokens.now file
        → MatchResult result (λ found. file_of found ≡ file) (λ refusal. refusal ≡ Refusal.NoMemory) }
    ensures refused { IfErr result
        (λ refusal. refusal ≢ Refusal.NoMemory
        → (fault : ParseErr) × IsFirstRefusal tokens.now fault × (refusal ≡ of_parser fault)) }
    ensures every_refusal { (fault : ParseErr) → IsFirstRefusal tokens.now fault
        → MatchResult result (λ _. ⊥) (λ refusal. (refusal ≡ of_parser fault) ⊎ (refusal ≡ Refusal.NoMemory)) }
{
    match parse(alloc, tokens) {
        Ok(file) => Ok(file),
        Err(fault) => Err(of_parser(&fault)),
    }
}

/// The file that the bytes spell, or why they spell none.
pub(crate) fn file_of_bytes(alloc: Global, bytes: &[u8]) -> Result<File, Refusal>
    requires { length bytes.now ≤ 2 ^ 20 }
    ensures spelled { IfOk result (λ file. IsFileText bytes.now (file_of file)) }
    ensures few { IfOk result (λ file. IsFew (file_of file)) }
    ensures in_order { IfOk result (λ file. ActsNeverFall (file_of file)) }
    ensures every_file { (file : tree.File) → IsFileText bytes.now file
        → MatchResult result (λ found. file_of found ≡ file) (λ refusal. refusal ≡ Refusal.NoMemory) }
    ensures refused { IfErr result (λ refusal. refusal ≢ Refusal.NoMemory → IsUnread bytes.now refusal) }
    ensures every_refusal { (refusal : Refusal) → IsUnread bytes.now refusal
        → MatchResult result (λ _. ⊥) (λ found. (found ≡ refusal) ⊎ (found ≡ Refusal.NoMemory)) }
{
    match tokens_of(alloc, bytes) {
        Ok(tokens) => tree_of(alloc, &tokens),
        Err(refusal) => Err(refusal),
    }
}

/// The core file of a file, or the first of its checks that fails.
pub(crate) fn core_of_file(alloc: Global, file: &File) -> Result<CoreFile, Refusal>
    requires few { IsFew (file_of file.now) }
    requires in_order { ActsNeverFall (file_of file.now) }
    ensures checked { IfOk result (λ _. IsChecked (file_of file.now)) }
    ensures core { IfOk result (λ core. IsCoreFileOf (file_of file.now) (map placed_of core.procs.items)) }
    ensures every_core { IsChecked (file_of file.now) → IfErr result (λ refusal. refusal ≡ Refusal.NoMemory) }
    ensures refused { IfErr result
        (λ refusal. refusal ≢ Refusal.NoMemory → IsUnchecked (file_of file.now) refusal) }
    ensures every_refusal { (refusal : Refusal) → IsUnchecked (file_of file.now) refusal
        → MatchResult result (λ _. ⊥) (λ found. (found ≡ refusal) ⊎ (found ≡ Refusal.NoMemory)) }
{
    let classes = match read_classes(alloc, file) {
        Ok(classes) => classes,
        Err(fault) => return Err(of_classes(&fault)),
    };
    match resolve(alloc, file, &classes) {
        Ok(core) => Ok(core),
        Err(fault) => Err(of_processes(&fault)),
    }
}

/// A file as it is written, and as it is when all names are resolved.
#[derive(Drop)]
pub(crate) struct Front {
    pub(crate) tree: File,
    pub(crate) core: CoreFile,
}

/// The file that the bytes spell with its core file, or why there is none.
pub(crate) fn core_of_bytes(alloc: Global, bytes: &[u8]) -> Result<Front, Refusal>
    requires { length bytes.now ≤ 2 ^ 20 }
    ensures spelled { IfOk result (λ front. IsCheckedText bytes.now (file_of front.tree)) }
    ensures core { IfOk result (λ front. map placed_of front.core.procs.items
        ≡ core_file (classes_of (file_of front.tree)) (file_of front.tree)) }
    ensures refused { IfErr result (λ refusal. refusal ≢ Refusal.NoMemory → IsFileRefused bytes.now refusal) }
    ensures every_refusal { (refusal : Refusal) → IsFileRefused bytes.now refusal
        → MatchResult result (λ _. ⊥) (λ found. (found ≡ refusal) ⊎ (found ≡ Refusal.NoMemory)) }
    ensures every_file { (file : tree.File) → IsCheckedText bytes.now file
        → MatchResult result (λ front. file_of front.tree ≡ file) (λ refusal. refusal ≡ Refusal.NoMemory) }
{
    core_file::laws::core_file_is_one();
    let tree = match file_of_bytes(alloc, bytes) {
        Ok(tree) => tree,
        Err(refusal) => return Err(refusal),
    };
    match core_of_file(alloc, &tree) {
        Ok(core) => Ok(Front { tree, core }),
        Err(refusal) => Err(refusal),
    }
}
