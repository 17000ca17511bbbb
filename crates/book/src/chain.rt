// What a block makes of a chain.
ghost use Rattle.std.specs.Prelude.{◌≡◌};
ghost use Rattle.tables.specs.Makes.{answer};
ghost use Rattle.tables.specs.Tables.{curves};
ghost use Rattle.book.specs.Chains.{staged, joins, serves, shapes, next_answer, first_answer};
ghost use Rattle.book.specs.Reads.{read_as};

use crate::block::{Block, Entries};
use crate::line::Line;
use tables::{Pair, Refusal, StageKind, joined, server_bounds, shaper_bounds};

fn join_line(chain: &Pair, entries: &Entries<'_>) -> Result<Line, Refusal>
    ensures { answer staged result ≡ joins (curves chain.now) (read_as 1 entries.now) }
{
    let events = entries.pair()?;
    let pair = joined(chain, &events)?;
    Ok(Line {
        stage: StageKind::Join,
        wait: 0,
        delay: 0,
        pair,
    })
}

// The bounds of a server and of a shaper are two types: a `From` for each would say their ends twice as well.
fn server_line(chain: &Pair, entries: &Entries<'_>) -> Result<Line, Refusal>
    ensures { answer staged result ≡ serves (curves chain.now) (read_as 2 entries.now) }
{
    let service = entries.pair()?;
    let bounds = server_bounds(chain, &service)?;
    Ok(Line {
        stage: StageKind::Server,
        wait: bounds.wait,
        delay: bounds.delay,
        pair: bounds.passed,
    })
}

fn shaper_line(chain: &Pair, entries: &Entries<'_>) -> Result<Line, Refusal>
    ensures { answer staged result ≡ shapes (curves chain.now) (read_as 3 entries.now) }
{
    let shaping = entries.table()?;
    let bounds = shaper_bounds(chain, &shaping)?;
    Ok(Line {
        stage: StageKind::Shaper,
        wait: bounds.wait,
        delay: bounds.delay,
        pair: bounds.passed,
    })
}

// The line of a block after a chain that hands on the pair.
pub fn next_line(chain: &Pair, block: &[u8]) -> Result<Line, Refusal>
    ensures { answer staged result ≡ next_answer (curves chain.now) block.now }
{
    let block = Block::read(block)?;
    if usize::from(block.frame()) != chain.most.frame() {
        return Err(Refusal::Frame);
    }
    match block {
        Block::Events(entries) => join_line(chain, &entries),
        Block::Service(entries) => server_line(chain, &entries),
        Block::Shaping(entries) => shaper_line(chain, &entries),
    }
}

// The pair of a block that starts a chain.
pub fn first_pair(block: &[u8]) -> Result<Pair, Refusal>
    ensures { answer curves result ≡ first_answer block.now }
{
    match Block::read(block)? {
        Block::Events(entries) => entries.pair(),
        _ => Err(Refusal::Kind),
    }
}
