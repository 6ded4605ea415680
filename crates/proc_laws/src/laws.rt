//! What is proved of calls.

ghost use Rattle.std.specs.Prelude.{◌≡◌, ℕ, List, [], ℤ, map, not, true, None};
ghost use Rattle.jade_base.specs.declared.place.Pos.{Pos};
ghost use Rattle.jade_lexer.specs.Lexemes.{TokenList};
ghost use Rattle.jade_lexer.specs.Reading.{reading, Whole};
ghost use Rattle.jade_parser.specs.Grammar.{IsReading, texts, positions};
ghost use Rattle.jade_syntax.specs.declared.tree.Program.{Program};
ghost use Rattle.jade_syntax.specs.PlacedImage.{placed_program};
ghost use Rattle.replaced_trees.specs.MovedTree.{tokens_moved};
ghost use Rattle.jade_syntax.specs.Erased.{erased_program};
ghost use Rattle.jade_syntax.specs.Placed.{PlacedProgram};
ghost use Rattle.jade_syntax.specs.StaticFaults.{static_faults};
ghost use Rattle.jade_meaning.specs.Moved.{moved_answer};
ghost use Rattle.proc_laws.specs.Moved.{moved_course, moved_program};
ghost use Rattle.proc_expand.specs.Refusals.{refusal};
ghost use Rattle.proc_expand.specs.Expanded.{origin_of};
ghost use Rattle.proc_expand.specs.Written.{expanded_text, expansion, fresh_name, text_names};
ghost use Rattle.jade_meaning.specs.Course.{root_course};
ghost use Rattle.jade_syntax.specs.Abstract.{Name};
ghost use Rattle.proc_laws.specs.Source.{SourceProgram};
ghost use Rattle.proc_laws.specs.SourceTree.{SourceText, source_of};
ghost use Rattle.proc_laws.specs.ExpandedTree.{expanded_tree};
ghost use Rattle.proc_laws.specs.AcceptedSource.{ReadsAsSource, AnswersAsSource};
ghost use Rattle.proc_laws.specs.SourceReading.{IsSourceReading, AreWords, expanded_tokens};
ghost use Rattle.jade_syntax.specs.Image.{program};
ghost use Rattle.jade_meaning.specs.Answer.{answer};
ghost use Rattle.jade_meaning.specs.Serial.{Path};
ghost use Rattle.proc_laws.specs.SourceMeaning.{source_course};
ghost use Rattle.proc_laws.specs.SourceAnswer.{source_answer};
ghost use Rattle.proc_laws.specs.Expansion.{AreFresh, Each, block_names, expanded_program, sets_all, item_name};
ghost use Rattle.proc_expand.specs.Names.{is_among};

use erased_places::laws::erased_is_program;
use jade_lexer::laws::reading_is_cut;
use jade_reading::laws::one_tree;

/// A law of programs with procedures, which does nothing: where the expanded program declares, hands
/// to a task and assigns no item, it does what its source does.
pub fn expanded_does_as_its_source()
    ensures { (fresh : ℕ → Name) → (p : SourceProgram) → AreFresh fresh p
        → Each (λ x. not (is_among (map item_name p.items) x)) (sets_all (expanded_program fresh p).main)
        → (numbers : List ℤ) → (limit : ℕ)
        → root_course (expanded_program fresh p) numbers limit ≡ source_course p numbers limit }
{}

/// A law of programs with procedures, which does nothing: the tree of an expanded program is the
/// expansion of its source.
pub fn tree_is_the_expansion()
    ensures { (fresh : ℕ → Name) → (q : SourceText)
        → program (expanded_tree fresh q) ≡ expanded_program fresh (source_of q) }
{
    erased_is_program();
}

/// A law of programs with procedures, which does nothing: where a program is the expansion of a source
/// but for its places, its new names are those that the source's text leaves free, and it has no
/// static fault, it does what the source does, with its faults at their origins.
pub fn accepted_does_as_its_source()
    ensures { (origin : Pos → Pos) → (names : List Name) → (q : SourceProgram)
        → ((x : Name) → is_among (map item_name q.items) x ≡ true → is_among names x ≡ true)
        → ((x : Name) → is_among (block_names q.main) x ≡ true → is_among names x ≡ true)
        → (p : PlacedProgram) → static_faults p ≡ []
        → moved_program origin (erased_program p) ≡ expanded_program (fresh_name names) q
        → (numbers : List ℤ) → (limit : ℕ)
        → moved_course origin (root_course (erased_program p) numbers limit) ≡ source_course q numbers limit }
{}

/// A law of programs with procedures, which does nothing: where tokens, each at its origin, read as
/// the tree of an expanded program whose new names are those that the source's text leaves free,
/// then any program without static faults that the tokens read as where they stand does what the
/// source does, with its faults at their origins.
pub fn tokens_do_as_their_source()
    ensures { (origin : Pos → Pos) → (names : List Name) → (q : SourceText)
        → ((x : Name) → is_among (map item_name (source_of q).items) x ≡ true → is_among names x ≡ true)
        → ((x : Name) → is_among (block_names (source_of q).main) x ≡ true → is_among names x ≡ true)
        → (tokens : TokenList) → IsReading (tokens_moved origin tokens) (expanded_tree (fresh_name names) q)
        → (p : Program) → IsReading tokens p → static_faults (placed_program p) ≡ []
        → (numbers : List ℤ) → (limit : ℕ)
        → moved_course origin (root_course (program p) numbers limit) ≡ source_course (source_of q) numbers limit }
{
    erased_is_program();
    one_tree();
}

/// A law of programs with procedures, which does nothing: where tokens read as a source and are not
/// refused, and no token that is written for them is longer than a word may be, what is written for
/// them, each token at its origin, reads as the tree of the expanded program.
pub fn written_is_the_tree()
    ensures { (l : TokenList) → (q : SourceText) → IsSourceReading l q → refusal l.lexemes ≡ None → AreWords l
        → IsReading (expanded_tokens l) (expanded_tree (fresh_name (text_names l.lexemes l.end)) q) }
{}

/// A law of programs with procedures, which does nothing: where tokens read as a source and are not
/// refused, then any program without static faults that the tokens that are written for them read as,
/// wherever these stand, does what the source does, with its faults at their origins.
pub fn written_does_as_its_source()
    ensures { (origin : Pos → Pos) → (l : TokenList) → (q : SourceText) → IsSourceReading l q → refusal l.lexemes ≡ None
        → (there : TokenList) → texts there ≡ texts (expanded_tokens l) → map origin (positions there) ≡ positions (expanded_tokens l)
        → (p : Program) → IsReading there p → static_faults (placed_program p) ≡ []
        → (numbers : List ℤ) → (limit : ℕ)
        → moved_course origin (root_course (program p) numbers limit) ≡ source_course (source_of q) numbers limit }
{
    erased_is_program();
    one_tree();
}

/// A law of programs with procedures, which does nothing. Let the text that is written for the tokens
/// of a text read as tokens. Where each of these stands, the origin that is told is that of the token
/// that was written there; where they end, it is where the source ends.
pub fn places_come_from_origins()
    ensures tokens { (text : List ℕ) → (l : TokenList) → reading text ≡ Whole l → (there : TokenList) → reading (expanded_text l) ≡ Whole there
        → map (origin_of (record { tokens = expansion l.lexemes l.end; end = l.end })) (positions there) ≡ positions (expanded_tokens l) }
    ensures end { (l there : TokenList) → reading (expanded_text l) ≡ Whole there
        → origin_of (record { tokens = expansion l.lexemes l.end; end = l.end }) there.end ≡ l.end }
{
    reading_is_cut();
}

/// A law of programs with procedures, which does nothing. Let tokens read as a source and not be
/// refused. If the text that is written for them reads as a program without static faults, then that
/// program does what the source does, with its faults at their origins.
pub fn text_does_as_its_source()
    ensures { (l : TokenList) → (q : SourceText) → IsSourceReading l q → refusal l.lexemes ≡ None
        → (there : TokenList) → reading (expanded_text l) ≡ Whole there
        → (p : Program) → IsReading there p → static_faults (placed_program p) ≡ []
        → (numbers : List ℤ) → (limit : ℕ)
        → moved_course (origin_of (record { tokens = expansion l.lexemes l.end; end = l.end })) (root_course (program p) numbers limit)
        ≡ source_course (source_of q) numbers limit }
{
    erased_is_program();
    one_tree();
}

/// A law of programs with procedures, which does nothing. Let tokens read as a source and not be
/// refused. If the tokens that are written for them, wherever these stand, read as a program without
/// static faults, then that program answers by turn lists what the source answers by them, with its
/// fault at its origin.
pub fn answers_as_its_source()
    ensures { (origin : Pos → Pos) → (l : TokenList) → (q : SourceText) → IsSourceReading l q → refusal l.lexemes ≡ None
        → (there : TokenList) → texts there ≡ texts (expanded_tokens l) → map origin (positions there) ≡ positions (expanded_tokens l)
        → (p : Program) → IsReading there p → static_faults (placed_program p) ≡ []
        → (numbers : List ℤ) → (limit : ℕ) → (turns : ℕ → List Path)
        → moved_answer origin (answer (program p) numbers limit turns) ≡ source_answer (source_of q) numbers limit turns }
{
    erased_is_program();
    one_tree();
}

/// A law of programs with procedures, which does nothing. Let tokens read as a source and not be
/// refused. If the text that is written for them reads as a program without static faults, then that
/// program answers by turn lists what the source answers by them, with its fault at its origin.
pub fn text_answers_as_its_source()
    ensures { (l : TokenList) → (q : SourceText) → IsSourceReading l q → refusal l.lexemes ≡ None
        → (there : TokenList) → reading (expanded_text l) ≡ Whole there
        → (p : Program) → IsReading there p → static_faults (placed_program p) ≡ []
        → (numbers : List ℤ) → (limit : ℕ) → (turns : ℕ → List Path)
        → moved_answer (origin_of (record { tokens = expansion l.lexemes l.end; end = l.end })) (answer (program p) numbers limit turns)
        ≡ source_answer (source_of q) numbers limit turns }
{
    erased_is_program();
    one_tree();
}

/// A law of programs with procedures, which does nothing. Let the tokens of a text not be refused, and
/// let the text that is written for them read as a program. Then there is a source that the tokens of
/// the text read as, so that what is proved of sources holds of each text that is accepted.
pub fn accepted_text_is_a_source()
    ensures { (text : List ℕ) → (l : TokenList) → reading text ≡ Whole l → refusal l.lexemes ≡ None
        → (there : TokenList) → reading (expanded_text l) ≡ Whole there → (p : Program) → IsReading there p → ReadsAsSource l }
{
    reading_is_cut();
}

/// A law of programs with procedures, which does nothing. Let the tokens of a text not be refused, and
/// let the text that is written for them read as a program without static faults. Then there is a
/// source that the tokens of the text read as, and by whatever turn lists the program answers, with
/// its fault at its origin, that is what the source answers.
pub fn accepted_text_answers_as_its_source()
    ensures { (text : List ℕ) → (l : TokenList) → reading text ≡ Whole l → refusal l.lexemes ≡ None
        → (there : TokenList) → reading (expanded_text l) ≡ Whole there
        → (p : Program) → IsReading there p → static_faults (placed_program p) ≡ [] → AnswersAsSource l p }
{
    reading_is_cut();
    erased_is_program();
    one_tree();
}
