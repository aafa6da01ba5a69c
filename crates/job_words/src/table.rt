//! Which options each job requires, allows and refuses.
ghost use Rattle.std.specs.Prelude.{◌≡◌, map, option_map, is_some};
ghost use Rattle.job_words.specs.Options.{options_of};
ghost use Rattle.job_words.specs.Table.{fault_of_row, first_fault, is_used_so, misused, rows_of};
ghost use Rattle.job_words.specs.Table.{are_given, uses_by, uses_by_study};

use crate::bad_word::{BadWord, OptionName};
use crate::options::Options;

/// The jobs of `alphamu`.
#[derive(Clone, Copy)]
pub(crate) enum Job {
    Solve,
    Card,
    Match,
    Fusion,
    List,
    Check,
    Made,
    Prove,
    Audit,
    Boards,
}

/// The jobs of `alphamu_study`.
#[derive(Clone, Copy)]
pub(crate) enum StudyJob {
    Words,
    Lines,
    Page,
    Cards,
    Review,
    Draw,
}

/// What a job makes of an option.
#[derive(Clone, Copy)]
pub(crate) enum Use {
    Required,
    Allowed,
    Refused,
    /// Required without `--moves`, and refused with it.
    InPlaceOfMoves,
    /// Allowed with `--moves`, and refused without it.
    WithMoves,
    /// Required without `--draw`, and refused with it.
    InPlaceOfDraw,
    /// Allowed with `--draw`, and refused without it.
    WithDraw,
}

/// What is asked for, as far as other options depend on it.
#[derive(Clone, Copy)]
pub(crate) struct Asked {
    /// With `--moves` a search.
    pub(crate) searches: bool,
    /// With `--draw` layouts that are drawn.
    pub(crate) draws: bool,
}

impl Use {
    // Whether an option that is given, or isn't, is used so.
    fn is_used_so(self, asked: Asked, given: bool) -> bool
        ensures { result ≡ is_used_so self asked given }
    {
        match self {
            Use::Required => given,
            Use::Allowed => true,
            Use::Refused => !given,
            Use::InPlaceOfMoves => given != asked.searches,
            Use::WithMoves => asked.searches || !given,
            Use::InPlaceOfDraw => given != asked.draws,
            Use::WithDraw => asked.draws || !given,
        }
    }
}

/// What a job makes of each option. The options on how to search go together, except the number of
/// nodes, and so do the conditions on the four hands.
#[derive(Clone, Copy)]
pub(crate) struct Uses {
    pub(crate) deal: Use,
    pub(crate) layouts: Use,
    pub(crate) report: Use,
    pub(crate) moves: Use,
    pub(crate) number: Use,
    pub(crate) layout: Use,
    pub(crate) switch: Use,
    pub(crate) log: Use,
    pub(crate) nodes: Use,
    pub(crate) search: Use,
    pub(crate) form: Use,
    pub(crate) from: Use,
    pub(crate) games: Use,
    pub(crate) draw: Use,
    pub(crate) seed: Use,
    pub(crate) conditions: Use,
}

const NO_OPTIONS: Uses = Uses {
    deal: Use::Refused,
    layouts: Use::Refused,
    report: Use::Refused,
    moves: Use::Refused,
    number: Use::Refused,
    layout: Use::Refused,
    switch: Use::Refused,
    log: Use::Refused,
    nodes: Use::Refused,
    search: Use::Refused,
    form: Use::Refused,
    from: Use::Refused,
    games: Use::Refused,
    draw: Use::Refused,
    seed: Use::Refused,
    conditions: Use::Refused,
};

/// The row of the table for this job of `alphamu`.
pub(crate) fn uses_by(job: Job) -> Uses
    ensures { result ≡ uses_by job }
{
    match job {
        Job::Solve | Job::Card | Job::Boards => Uses {
            deal: Use::Required,
            layouts: Use::Required,
            moves: Use::Required,
            nodes: Use::Allowed,
            search: Use::Allowed,
            ..NO_OPTIONS
        },
        Job::Match => Uses {
            deal: Use::Required,
            layouts: Use::Required,
            moves: Use::Required,
            layout: Use::Required,
            switch: Use::Allowed,
            nodes: Use::Allowed,
            search: Use::Allowed,
            ..NO_OPTIONS
        },
        Job::Fusion => Uses {
            deal: Use::Required,
            layouts: Use::Required,
            ..NO_OPTIONS
        },
        Job::List => Uses {
            deal: Use::Required,
            ..NO_OPTIONS
        },
        Job::Check => Uses {
            deal: Use::Required,
            layouts: Use::Required,
            report: Use::Required,
            ..NO_OPTIONS
        },
        Job::Made => Uses {
            number: Use::Required,
            nodes: Use::Allowed,
            search: Use::Allowed,
            ..NO_OPTIONS
        },
        Job::Prove => Uses {
            deal: Use::Required,
            layouts: Use::Required,
            moves: Use::Required,
            nodes: Use::Allowed,
            ..NO_OPTIONS
        },
        Job::Audit => Uses {
            deal: Use::Required,
            layouts: Use::Required,
            report: Use::Required,
            log: Use::Required,
            ..NO_OPTIONS
        },
    }
}

/// The row of the table for this job of `alphamu_study`.
pub(crate) fn uses_by_study(job: StudyJob) -> Uses
    ensures { result ≡ uses_by_study job }
{
    match job {
        StudyJob::Words | StudyJob::Lines | StudyJob::Page => Uses {
            deal: Use::Required,
            layouts: Use::InPlaceOfDraw,
            report: Use::InPlaceOfMoves,
            moves: Use::Allowed,
            nodes: Use::WithMoves,
            search: Use::WithMoves,
            draw: Use::Allowed,
            seed: Use::WithDraw,
            conditions: Use::WithDraw,
            ..NO_OPTIONS
        },
        StudyJob::Cards => Uses {
            deal: Use::Required,
            layouts: Use::InPlaceOfDraw,
            moves: Use::Allowed,
            nodes: Use::Allowed,
            search: Use::Allowed,
            form: Use::Allowed,
            draw: Use::Allowed,
            seed: Use::WithDraw,
            conditions: Use::WithDraw,
            ..NO_OPTIONS
        },
        StudyJob::Draw => Uses {
            deal: Use::Required,
            draw: Use::Required,
            seed: Use::Allowed,
            conditions: Use::Allowed,
            ..NO_OPTIONS
        },
        StudyJob::Review => Uses {
            deal: Use::Required,
            layouts: Use::Required,
            moves: Use::Required,
            nodes: Use::Allowed,
            search: Use::Allowed,
            form: Use::Allowed,
            from: Use::Allowed,
            games: Use::Allowed,
            ..NO_OPTIONS
        },
    }
}

/// An option, what a job makes of it, and whether it is given.
#[derive(Clone, Copy)]
struct OptionUse {
    name: OptionName,
    wanted: Use,
    given: bool,
}

impl OptionUse {
    // Why the option isn't used as wanted, if it isn't.
    fn fault(&self, asked: Asked) -> Option<BadWord>
        ensures { result ≡ fault_of_row asked self.now }
    {
        if self.wanted.is_used_so(asked, self.given) {
            None
        } else if self.given {
            Some(BadWord::NotTaken(self.name))
        } else {
            Some(BadWord::Missing(self.name))
        }
    }
}

fn use_of(name: OptionName, wanted: Use, given: bool) -> OptionUse
    ensures { result ≡ record { name = name; wanted = wanted; given = given } }
{
    OptionUse {
        name,
        wanted,
        given,
    }
}

fn is_given(value: Option<&str>) -> bool
    ensures { result ≡ is_some (option_map (λ s. s.now) value.entry) }
{
    value.is_some()
}

fn are_given(values: &[&str]) -> bool
    ensures { result ≡ are_given (map (λ s. s.now) values.now) }
{
    !values.is_empty()
}

// The first fault in rows.
fn first_fault(asked: Asked, rows: &[OptionUse]) -> Option<BadWord>
    ensures { result ≡ first_fault asked rows.now }
{
    for row in rows {
        if let Some(fault) = row.fault(asked) {
            return Some(fault);
        }
    }
    None
}

impl Uses {
    // What a job with these uses makes of each option.
    fn rows(&self, options: &Options<'_>) -> [OptionUse; 23]
        ensures { result ≡ rows_of self.now (options_of options.now) }
    {
        let search = &options.search;
        [
            use_of(OptionName::Deal, self.deal, is_given(options.deal)),
            use_of(OptionName::Layouts, self.layouts, is_given(options.layouts)),
            use_of(OptionName::Report, self.report, is_given(options.report)),
            use_of(OptionName::Moves, self.moves, is_given(options.moves)),
            use_of(OptionName::Number, self.number, is_given(options.number)),
            use_of(OptionName::Layout, self.layout, is_given(options.layout)),
            use_of(OptionName::Switch, self.switch, is_given(options.switch)),
            use_of(OptionName::Log, self.log, is_given(options.log)),
            use_of(OptionName::Nodes, self.nodes, is_given(options.nodes)),
            use_of(OptionName::Workers, self.search, is_given(search.workers)),
            use_of(OptionName::Shards, self.search, is_given(search.shards)),
            use_of(OptionName::Room, self.search, is_given(search.room)),
            use_of(OptionName::NoTable, self.search, search.no_table),
            use_of(OptionName::NoCuts, self.search, search.no_cuts),
            use_of(OptionName::Form, self.form, is_given(options.form)),
            use_of(OptionName::From, self.from, is_given(options.from)),
            use_of(OptionName::Games, self.games, options.games),
            use_of(OptionName::Draw, self.draw, is_given(options.draw)),
            use_of(OptionName::Seed, self.seed, is_given(options.seed)),
            use_of(
                OptionName::North,
                self.conditions,
                are_given(&options.north),
            ),
            use_of(OptionName::East, self.conditions, are_given(&options.east)),
            use_of(
                OptionName::South,
                self.conditions,
                are_given(&options.south),
            ),
            use_of(OptionName::West, self.conditions, are_given(&options.west)),
        ]
    }

    /// The first option that isn't used as a job with these uses wants it.
    #[tactic(auto, unfolding(crate::specs::Table::misused))]
    pub(crate) fn misused(&self, options: &Options<'_>) -> Option<BadWord>
        ensures { result ≡ misused self.now (options_of options.now) }
    {
        let asked = Asked {
            searches: is_given(options.moves),
            draws: is_given(options.draw),
        };
        first_fault(asked, &self.rows(options))
    }
}
