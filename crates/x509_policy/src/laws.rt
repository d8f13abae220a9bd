//! What holds of the policies of all paths. Each law is a function with an empty body, whose contract is the law.

ghost use Rattle.std.specs.Prelude.{◌≡◌, ◌≤◌, ◌+◌, ℕ, suc, Bool, false, List, [], length, Some};
ghost use Rattle.x509_policy.specs.Graph.{count_expected, next_level, outcome_by_graph, prepared_level};
ghost use Rattle.x509_policy.specs.Levels.{Alike, ByLevels, Level};
ghost use Rattle.x509_policy.specs.Path.{Outcome, initial_counters, outcome};
ghost use Rattle.x509_policy.specs.Values.{Certificate, Mapping, Policy, Settings, is_repeated};

/// What is answered by levels, one set of policies a certificate, is what RFC 5280 answers by its valid policy tree: the
/// same refusal at the same certificate, or the same user-constrained policy set. `ByLevels` says which levels are right
/// by what is in them, in any order.
#[tactic(auto, using(crate::proofs::Outcomes::outcome_by_levels))]
pub fn levels_answer_as_the_tree()
    ensures { (settings : Settings) (c : Certificate) (rest : List Certificate) (out : Outcome)
        → ByLevels settings 0 (initial_counters settings (suc (length rest))) [] c rest out → Alike out (outcome settings c rest) }
{}

/// The graph, whose levels are made from what the certificates say, answers to each path what the tree answers.
#[tactic(auto, using(crate::proofs::GraphEnds::graph_as_tree))]
pub fn the_graph_answers_as_the_tree()
    ensures { (settings : Settings) (c : Certificate) (rest : List Certificate) → Alike (outcome_by_graph settings c rest) (outcome settings c rest) }
{}

/// A certificate adds to what is expected no more than what it says: behind it no more policies are expected than before
/// it, and one for each of its policies and of its mappings, where the nodes of the tree may grow exponentially.
#[tactic(auto, using(crate::proofs::Sizes::grows_by))]
pub fn the_graph_grows_by_what_certificates_say()
    ensures { (policies : List Policy) (others : Bool) (mappings : List Mapping) (inhibited : Bool) (above : Level) → is_repeated policies ≡ false
        → count_expected (prepared_level mappings inhibited (next_level (Some policies) others above))
        ≤ count_expected above + length policies + length mappings }
{}
