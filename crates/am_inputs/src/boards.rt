//! The games of a deal file, each with a layout file of its own.
ghost use Rattle.std.specs.Prelude.{◌≡◌, ◌≤◌, ◌<◌, ◌-◌, ◌^◌, ℕ, List, Ok, All, length, string_bytes};
ghost use Rattle.std.specs.Prelude.{IfOk, IfErr, IfSome, IsErrOf};
ghost use Rattle.am_outside.specs.Faults.{Rose};
ghost use Rattle.am_answer.specs.Answers.{IsRoot, game_root, game_roots};
ghost use Rattle.am_answer.specs.Files.{game_files, layouts_from, AreGameFiles, AreWithinLimit};
ghost use Rattle.am_answer.specs.Files.{IsGameNumber};
ghost use Rattle.am_answer.specs.Games.{games_of, layouts_name, most_games};
ghost use Rattle.am_answer.specs.Stages.{IsFileRefusal, IsOfFiles, IsReadRefusal};

use crate::inputs::read_file;
use crate::root::root_on;
use am_answer::{FileWord, GameFiles, PbnKind, Root, Status};
use am_outside::Shelf;
use byte_text::Text;
use pbn_deal::read_board;
use pbn_text::{Game, games};
use std::alloc::{AllocError, Global};

// The most games that a deal file may have.
const MOST_GAMES: usize = 64;

// The games of a deal file: one at least, and not too many.
#[tactic(auto, unfolding(am_answer::specs::Games::games_of))]
fn read_games(alloc: Global, deal: &Text) -> Result<Vec<Game>, Status>
    requires { length deal.now < 2 ^ 32 - 1 }
    ensures games { IfOk result (λ games. games_of deal.now ≡ Ok games.items) }
    ensures few { IfOk result (λ games. length games.items ≤ most_games) }
    ensures tagged { IfOk result (λ games. All (λ game. 1 ≤ length game.tags) games.items) }
    ensures refused { IfErr result (IsFileRefusal (games_of deal.now)) }
    ensures not_read { IfErr result (IsReadRefusal (games_of deal.now)) }
    ensures only { IfErr result IsOfFiles }
{
    let games = games(alloc, deal.bytes())?;
    let count = games.len();
    if count == 0 {
        Err(Status::BadPbn(1, PbnKind::NoGame))
    } else if count <= MOST_GAMES {
        Ok(games)
    } else {
        Err(Status::TooManyGames(count as u32))
    }
}

// The name of the layout file of the game of a number.
fn layouts_name(alloc: Global, name: &str, number: usize) -> Result<String, AllocError>
    ensures { IfOk result (λ text. string_bytes text ≡ layouts_name name.now number) }
{
    let digits = format!(in alloc; "{number}")?;
    let mut file = String::from_str(alloc, name)?;
    file.push_str(".")?;
    file.push_str(digits.as_str())?;
    Ok(file)
}

// The layout files of games 1 to `count`, in order.
fn read_in_order<S: Shelf>(
    alloc: Global,
    shelf: &mut S,
    name: &str,
    count: usize,
) -> Result<Vec<Text>, Status>
    requires { count ≤ most_games }
    ensures within { IfOk result (λ texts. AreWithinLimit texts.items) }
    ensures read { IfSome (S.told shelf.old) (λ files.
        IfOk result (λ texts. layouts_from files name.now 1 count ≡ Ok texts.items)) }
    ensures refused { IfSome (S.told shelf.old) (λ files.
        IfErr result (IsReadRefusal (layouts_from files name.now 1 count))) }
    ensures only { IfErr result IsOfFiles }
    ensures unread { (file : FileWord) → IsErrOf result (Status.Unread file)
        → (file ≡ FileWord.Layouts) × (number : ℕ) × (1 ≤ number) × (number ≤ count)
        × Rose (S.faults shelf.old (layouts_name name.now number))
        (S.faults shelf.new (layouts_name name.now number)) }
    ensures never_falls { (other : List ℕ) → S.faults shelf.old other ≤ S.faults shelf.new other }
    ensures same_files { S.told shelf.new ≡ S.told shelf.old }
{
    let mut texts = Vec::new(alloc);
    for place in 0..count {
        let file = layouts_name(alloc, name, place + 1)?;
        let text = read_file(alloc, shelf, FileWord::Layouts, file.as_str())?;
        texts.push(text)?;
    }
    Ok(texts)
}

/// The games of a deal file, and the layout file of each, in order. If the deal file is refused, no
/// other file is read.
#[tactic(auto, unfolding(am_answer::specs::Files::game_files))]
pub(crate) fn read_game_files<S: Shelf>(
    alloc: Global,
    shelf: &mut S,
    name: &str,
    deal: &Text,
) -> Result<GameFiles, Status>
    requires { length deal.now < 2 ^ 32 - 1 }
    ensures within { IfOk result AreGameFiles }
    ensures read { IfSome (S.told shelf.old) (λ files.
        IfOk result (λ read. game_files files name.now deal.now ≡ Ok read)) }
    ensures refused { IfSome (S.told shelf.old) (λ files.
        IfErr result (IsReadRefusal (game_files files name.now deal.now))) }
    ensures only { IfErr result IsOfFiles }
    ensures unread { (file : FileWord) → IsErrOf result (Status.Unread file)
        → (file ≡ FileWord.Layouts) × (number : ℕ) × IsGameNumber deal.now number
        × Rose (S.faults shelf.old (layouts_name name.now number))
        (S.faults shelf.new (layouts_name name.now number)) }
    ensures never_falls { (other : List ℕ) → S.faults shelf.old other ≤ S.faults shelf.new other }
    ensures same_files { S.told shelf.new ≡ S.told shelf.old }
{
    let games = read_games(alloc, deal)?;
    let texts = read_in_order(alloc, shelf, name, games.len())?;
    Ok(GameFiles::new(games, texts))
}

// What a game comes to with its layout file.
#[tactic(auto, unfolding(am_answer::specs::Answers::game_root))]
fn read_game(alloc: Global, game: &Game, layouts: &Text) -> Result<Root, Status>
    requires tagged { 1 ≤ length game.now.tags }
    requires short { length layouts.now < 2 ^ 32 - 1 }
    ensures root { IfOk result (λ root. game_root game.now layouts.now ≡ Ok root) }
    ensures is_root { IfOk result IsRoot }
    ensures refused { IfErr result (IsFileRefusal (game_root game.now layouts.now)) }
{
    let board = read_board(alloc, game)?;
    root_on(alloc, board, layouts)
}

// The same, with a refusal for a failed allocation set apart.
fn root_or_refusal(
    alloc: Global,
    game: &Game,
    layouts: &Text,
) -> Result<Result<Root, Status>, AllocError>
    requires tagged { 1 ≤ length game.now.tags }
    requires short { length layouts.now < 2 ^ 32 - 1 }
    ensures found { IfOk result (λ found. found ≡ game_root game.now layouts.now) }
    ensures is_root { IfOk result (λ found. IfOk found IsRoot) }
{
    match read_game(alloc, game, layouts) {
        Ok(root) => Ok(Ok(root)),
        Err(Status::Memory) => Err(AllocError),
        Err(status) => Ok(Err(status)),
    }
}

// What each of these games comes to with its layout file, in order.
fn roots_of(
    alloc: Global,
    games: &[Game],
    layouts: &[Text],
) -> Result<Vec<Result<Root, Status>>, AllocError>
    requires tagged { All (λ game. 1 ≤ length game.tags) games.now }
    requires layouts_within { AreWithinLimit layouts.now }
    ensures roots { IfOk result (λ roots.
        roots.items ≡ game_roots (record { games = games.now; layouts = layouts.now })) }
    ensures are_roots { IfOk result (λ roots. All (λ found. IfOk found IsRoot) roots.items) }
{
    let mut roots = Vec::new(alloc);
    let count = games.len().min(layouts.len());
    for place in 0..count {
        let found = root_or_refusal(alloc, &games[place], &layouts[place])?;
        roots.push(found)?;
    }
    Ok(roots)
}

/// What each game comes to with its own layout file, in order: a root, or why it has none. It fails
/// only if an allocation fails, which is never among the reasons.
pub fn read_roots(alloc: Global, files: &GameFiles) -> Result<Vec<Result<Root, Status>>, AllocError>
    requires { AreGameFiles files.now }
    ensures roots { IfOk result (λ roots. roots.items ≡ game_roots files.now) }
    ensures are_roots { IfOk result (λ roots. All (λ found. IfOk found IsRoot) roots.items) }
    ensures few { IfOk result (λ roots. length roots.items ≤ most_games) }
{
    roots_of(alloc, files.games(), files.layouts())
}
