// Which event a heard line is, for a terminal and for the network end.
ghost use Rattle.std.specs.Prelude.{◌≡◌};
ghost use Rattle.heard_line.specs.Heard.{downward_event, upward_event, loss_up};

use alignment::Followed;

// What a period's downward line shows: a pulse, a framed period, A at 1.
#[derive(Clone, Copy)]
pub struct Downward {
    pub pulse: bool,
    pub framed: bool,
    pub a: bool,
}

// What a period's upward line shows: a pulse, a framed period, exactly INFO 1's symbols.
#[derive(Clone, Copy)]
pub struct Upward {
    pub pulse: bool,
    pub framed: bool,
    pub info1: bool,
}

impl Downward {
    // Gives the event of table 6-2 that the line is, where the period makes f of alignment.
    #[tactic(auto, unfolding(crate::specs::Heard::downward_event))]
    pub fn event(self, f: Followed) -> u8
        ensures { result ≡ downward_event self f }
    {
        if self.pulse {
            if f.lost {
                return table_6_2::LOSS_ROW;
            }
            if self.framed {
                if f.alignment.aligned {
                    return if self.a {
                        table_6_2::INFO_4_ROW
                    } else {
                        table_6_2::INFO_2_ROW
                    };
                }
            }
            return table_6_2::SIGNAL_ROW;
        }
        table_6_2::INFO_0_ROW
    }
}

impl Upward {
    // Gives the event of table 6-3 that the line is, besides loss, 0 for none.
    #[tactic(auto, unfolding(crate::specs::Heard::upward_event))]
    pub fn event(self, f: Followed) -> u8
        ensures { result ≡ upward_event self f }
    {
        if self.pulse {
            if self.info1 {
                return table_6_3::INFO_1_ROW;
            }
            if self.framed {
                if f.alignment.aligned {
                    return table_6_3::INFO_3_ROW;
                }
            }
            return 0;
        }
        table_6_3::INFO_0_ROW
    }
}

// Gives the event of loss at the network end, 0 for none.
#[tactic(auto, unfolding(crate::specs::Heard::loss_up))]
pub fn loss_up(f: Followed) -> u8
    ensures { result ≡ loss_up f }
{
    if f.lost { table_6_3::LOSS_ROW } else { 0 }
}
