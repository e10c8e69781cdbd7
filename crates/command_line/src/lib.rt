//! The command line of `dumpcap` over the outside as it is: it makes the objects of the outside (`cap_real`), and runs the
//! words of the process (`dumpcap_main`). The programs are calls of it alone.
#![tactic(auto)]

mod running;

pub use running::run_command_line;
