ghost use Rattle.std.specs.Prelude.{◌≡◌};
ghost use Rattle.pcapng_grammar.specs.Defects.{order_defect};

use crate::blocks::FileBlock;
use crate::fault::What;
use cap_base::MAX_INTERFACES;

/// What is wrong with the place of a block that follows so many descriptions and so many statistics blocks.
#[tactic(auto, unfolding(crate::specs::Defects::order_defect))]
pub fn order_defect(descriptions: usize, statistics: usize, block: FileBlock) -> Option<What>
    ensures { result ≡ order_defect descriptions statistics block }
{
    match block {
        FileBlock::Section => None,
        FileBlock::Description => {
            if descriptions >= MAX_INTERFACES {
                return Some(What::Interface);
            }
            if statistics != 0 {
                return Some(What::Late);
            }
            None
        }
        FileBlock::Packet { number } => {
            if number as usize >= descriptions {
                return Some(What::Interface);
            }
            if statistics != 0 {
                return Some(What::Late);
            }
            None
        }
        FileBlock::Statistics { number, .. } => {
            if number as usize >= descriptions {
                return Some(What::Interface);
            }
            if number as usize != statistics {
                return Some(What::Statistics);
            }
            None
        }
    }
}
