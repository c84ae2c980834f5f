#![tactic(auto)]

// The day sheets that the programs are tried on.
pub const LIST: &[u8] = b"L,QU\nL,JU\nS,A\nS,AB\nS,ABC\nS,B\nS,BA\n";

pub const BOOK: &[u8] =
    b"E, \nE,X\nD,B\nD,S\nC,1,@\nC,1,R\nC,2, \nC,2,F\nC,3, \nC,3,T\nC,4, \nC,4,I\nC,4,P\nN, ,F\n";
