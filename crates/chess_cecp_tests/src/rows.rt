//! The sessions of the specification, and others from outside, as they look in a terminal: after `> ` comes a line
//! that is read, and below it are the lines of its answer. `@` is 64 letters `z` in both.

/// Commands and lines of all kinds, apart from moves.
pub const COMMANDS: &[&[u8]] = &[
    // The first session. Nothing after `quit` is answered.
    b"> new
> e2e4
> ping 7
pong 7
> undo
> showfen
# fen rnbqkbnr/pppppppp/8/8/8/8/PPPPPPPP/RNBQKBNR w KQkq - 0 1
> quit
> showfen
",
    // Numbers of one to nine digits.
    b"> ping 007\r
pong 7
>  \tping 1234567890
Error (bad number): ping 1234567890
> ping
Error (bad number): ping
> ping x
Error (bad number): ping x
> ping 999999999
pong 999999999
",
    // Moves by `usermove`, which takes all that follows it.
    b"> usermove e2e5
Illegal move: e2e5
> usermove
Error (unknown command): usermove
> usermove \t\x20
Error (unknown command): usermove
> usermove  e2 e4
Illegal move: e2 e4
",
    // What is taken back must be there.
    b"> new
> undo
Error (command not legal now): undo
> undo x
Error (command not legal now): undo
> e2e4
> showfen
# fen rnbqkbnr/pppppppp/8/8/4P3/8/PPPP1PPP/RNBQKBNR b KQkq e3 0 1
",
    b"> new
> undo
Error (command not legal now): undo
> e2e4
> remove
Error (command not legal now): remove
> remove now
Error (command not legal now): remove
> showfen
# fen rnbqkbnr/pppppppp/8/8/4P3/8/PPPP1PPP/RNBQKBNR b KQkq e3 0 1
> e7e5
> g1f3
> remove
> showfen
# fen rnbqkbnr/pppppppp/8/8/4P3/8/PPPP1PPP/RNBQKBNR b KQkq e3 0 1
",
    // A refused move leaves the game as it was; `new` does not.
    b"> e2e4
> e2e4
Illegal move: e2e4
> showfen
# fen rnbqkbnr/pppppppp/8/8/4P3/8/PPPP1PPP/RNBQKBNR b KQkq e3 0 1
> new
> showfen now
# fen rnbqkbnr/pppppppp/8/8/8/8/PPPPPPPP/RNBQKBNR w KQkq - 0 1
",
    // Lines of spaces and tabs, and bytes that are no text.
    b">\x20
> \r
>   \t
> \xC3\xA9
Error (unknown command): \xC3\xA9
> \0
Error (unknown command): \0
> New
Error (unknown command): New
",
    // The handshake.
    b"> xboard
> protover 2
feature ping=1 setboard=1 playother=0 san=0 usermove=1 time=1 draw=1 sigint=0 sigterm=0 reuse=1 analyze=0 colors=0 \
debug=1 myname=\"CECP arbiter\" variants=\"normal,fischerandom\" done=1
> accepted done
> protover 1
> protover 0
> protover x
Error (bad number): protover x
> protover
Error (bad number): protover
> variant normal
> variant atomic
Error (unsupported variant): variant atomic
> variant
Error (unsupported variant): variant
> go
Error (the arbiter plays no side): go
> go now
Error (the arbiter plays no side): go
> force
> level 40 5 0
> ?
>\x20
",
    // How an interface begins, and what it sends an engine on its way.
    b"> xboard
> protover 2
feature ping=1 setboard=1 playother=0 san=0 usermove=1 time=1 draw=1 sigint=0 sigterm=0 reuse=1 analyze=0 colors=0 \
debug=1 myname=\"CECP arbiter\" variants=\"normal,fischerandom\" done=1
> accepted ping
> accepted setboard
> accepted usermove
> rejected debug
> accepted done
> new
> random
> level 40 5 0
> post
> hard
> easy
> nopost
> computer
> name GNU Chess
> rating 2000 1900
> ics -
> st 5
> sd 6
> time 30000
> otim 30000
> force
> ping 1
pong 1
> setboard rnbqkbnr/pppppppp/8/8/4P3/8/PPPP1PPP/RNBQKBNR b KQkq e3 0 1
> usermove e7e5
> draw
> ping 2
pong 2
> quit
",
    // `quit` takes no argument.
    b"> quit now
> ping 1
",
];

/// Lines of 1,024 bytes, the most that is read, and longer ones.
pub const LONG: &[&[u8]] = &[
    // One of 1,024 bytes; one byte more; a carriage return more.
    b"> @@@@@@@@@@@@@@@@
Error (unknown command): @@@@@@@@@@@@@@@@
> @@@@@@@@@@@@@@@@z
Error (line too long): @
> ping 3
pong 3
> @@@@@@@@@@@@@@@@\r
Error (line too long): @
> ping 4
pong 4
",
];

/// Moves in coordinates and in SAN, legal and not.
pub const MOVES: &[&[u8]] = &[
    // All legal moves, in order.
    b"> new
> showmoves
# moves 20 b1a3 b1c3 g1f3 g1h3 a2a3 a2a4 b2b3 b2b4 c2c3 c2c4 d2d3 d2d4 e2e3 e2e4 f2f3 f2f4 g2g3 g2g4 h2h3 h2h4
",
    // A line without a move's shape is no command; one with it may be no legal move.
    b"> e2e4k
Error (unknown command): e2e4k
> e2i4
Error (unknown command): e2i4
> e2e4qq
Error (unknown command): e2e4qq
> e2e4q
Illegal move: e2e4q
> a7a8Q+
Illegal move: a7a8Q+
> ??
Error (unknown command): ??
",
    // Marks at the end of a move are passed over.
    b"> e2e4!?
> usermove e7e5#
> undo
> showfen
# fen rnbqkbnr/pppppppp/8/8/4P3/8/PPPP1PPP/RNBQKBNR b KQkq e3 0 1
",
    // Castling on the king's side: 1. e4 e5 2. Nf3 Nf6 3. Bc4 Bc5 4. O-O.
    b"> e2e4
> e7e5
> g1f3
> g8f6
> f1c4
> f8c5
> e1g1
> showfen
# fen rnbqk2r/pppp1ppp/5n2/2b1p3/2B1P3/5N2/PPPP1PPP/RNBQ1RK1 b kq - 5 4
> undo
> showfen
# fen rnbqk2r/pppp1ppp/5n2/2b1p3/2B1P3/5N2/PPPP1PPP/RNBQK2R w KQkq - 4 4
",
    // En passant, at once and too late: 1. e4 a6 2. e5 d5 3. exd6; and 1. e4 a6 2. e5 d5 3. h3 h6 4. exd6.
    b"> e2e4
> a7a6
> e4e5
> d7d5
> e5d6
> showfen
# fen rnbqkbnr/1pp1pppp/p2P4/8/8/8/PPPP1PPP/RNBQKBNR b KQkq - 0 3
> undo
> h2h3
> h7h6
> e5d6
Illegal move: e5d6
",
    // Promotion: the pawn from a2 takes on b7 and a8, and becomes a knight.
    b"> a2a4
> b7b5
> a4b5
> a7a6
> b5b6
> a6a5
> b6b7
> a5a4
> b7a8
Illegal move: b7a8
> b7a8k
Error (unknown command): b7a8k
> b7a8n
> showfen
# fen Nnbqkbnr/2pppppp/8/8/p7/8/1PPPPPPP/RNBQKBNR b KQk - 0 5
",
    b"> setboard 8/4P3/8/8/8/2k5/8/4K3 w - - 0 1
> e7e8
Illegal move: e7e8
> e7e8k
Error (unknown command): e7e8k
> showmoves
# moves 8 e1d1 e1f1 e1e2 e1f2 e7e8q e7e8r e7e8b e7e8n
> e7e8q
> showfen
# fen 4Q3/8/8/8/8/2k5/8/4K3 b - - 0 1
",
    b"> setboard 8/4P3/8/8/8/2k5/8/4K3 w - - 0 1
> e8
Illegal move: e8
> e8=N!?
1/2-1/2 {Insufficient material}
",
    // A pinned piece, and a king that stays in check: 1. e4 e5 2. Qh5 Nc6 3. Qxf7+.
    b"> e2e4
> e7e5
> d1h5
> f7f6
Illegal move: f7f6
> b8c6
> h5f7
> a7a6
Illegal move: a7a6
> e8f7
> showfen
# fen r1bq1bnr/pppp1kpp/2n5/4p3/4P3/8/PPPP1PPP/RNB1KBNR w KQ - 0 4
",
    // Two pieces leave the rank.
    b"> setboard 7k/8/8/K2pP2r/8/8/8/8 w - d6 0 1
> usermove e5d6
Illegal move: e5d6
",
    // Castling on the queen's side with b1 attacked.
    b"> setboard 4k3/8/8/8/8/8/1r6/R3K3 w Q - 0 1
> usermove e1c1
> showfen
# fen 4k3/8/8/8/8/8/1r6/2KR4 b - - 1 1
",
    // Moves in SAN and in looser forms.
    b"> new
> e4!?
> e5
> Nge2
> showfen
# fen rnbqkbnr/pppp1ppp/8/4p3/4P3/8/PPPPNPPP/RNBQKB1R b KQkq - 1 2
> undo
> usermove Ng1e2+
> showfen
# fen rnbqkbnr/pppp1ppp/8/4p3/4P3/8/PPPPNPPP/RNBQKB1R b KQkq - 1 2
",
    // Moves that no piece can make.
    b"> new
> bc3
Illegal move: bc3
> O-O
Illegal move: O-O
> usermove 0-0-0+
Illegal move: 0-0-0+
> Bc4
Illegal move: Bc4
> exd3
Illegal move: exd3
> e8=Q
Illegal move: e8=Q
",
    // Texts that several moves fit.
    b"> setboard 8/k7/8/8/4Q2Q/8/K7/7Q w - - 0 1
> Qe1
Error (ambiguous move): Qe1
> setboard 4k3/8/8/8/8/5N2/8/1N2K3 w - - 0 1
> usermove Nd2
Error (ambiguous move): Nd2
> Nd2#
Error (ambiguous move): Nd2#
> Nbd2
> showfen
# fen 4k3/8/8/8/8/5N2/3N4/4K3 b - - 1 1
",
    // Texts of no form.
    b"> new
> nf3
Error (unknown command): nf3
> e7e8k
Error (unknown command): e7e8k
> 0-0-0-0
Error (unknown command): 0-0-0-0
> \xE2\x99\x98f3
Error (unknown command): \xE2\x99\x98f3
> Nf3=Q
Error (unknown command): Nf3=Q
> 4e5
Error (unknown command): 4e5
> xe5
Error (unknown command): xe5
> e2-e4
Error (unknown command): e2-e4
> usermove nf3
Illegal move: nf3
> usermove ++
Illegal move: ++
> +!?#
Error (unknown command): +!?#
> e4 e5
Error (unknown command): e4 e5
",
    // Castling and en passant in SAN.
    b"> e4
> e5
> Nf3
> Nf6
> Bc4
> Bc5
> 0-0
> showfen
# fen rnbqk2r/pppp1ppp/5n2/2b1p3/2B1P3/5N2/PPPP1PPP/RNBQ1RK1 b kq - 5 4
> new
> e4
> a6
> e5
> d5
> exd6
> showfen
# fen rnbqkbnr/1pp1pppp/p2P4/8/8/8/PPPP1PPP/RNBQKBNR b KQkq - 0 3
",
];

/// Starts that are set by a FEN, and FENs that are refused.
pub const STARTS: &[&[u8]] = &[
    // A start with a verdict.
    b"> setboard 7k/5Q2/6K1/8/8/8/8/8 b - - 0 1
1/2-1/2 {Stalemate}
> h8g8
Illegal move (game over): h8g8
> undo
Error (command not legal now): undo
",
    // A start that is mate, and mate by a move to a last rank: mate comes before 75 moves.
    b"> setboard 7k/6Q1/6K1/8/8/8/8/8 b - - 0 1
1-0 {White mates}
> setboard 7k/8/6K1/8/8/8/8/R7 w - - 149 200
> a1a8
1-0 {White mates}
",
    // Refused starts leave the game as it was.
    b"> new
> e2e4
> setboard 4k3/8/8/8/8/8/8/K3K3 w - - 0 1
tellusererror Illegal position (kings)
> setboard 4k3/8/8/8/8/8/8/4K2R w KQ - 0 1
tellusererror Illegal position (castling)
> showfen
# fen rnbqkbnr/pppppppp/8/8/4P3/8/PPPP1PPP/RNBQKBNR b KQkq e3 0 1
",
    // Each fault of a FEN has its one name, and the game stays.
    b"> d2d4
> setboard
tellusererror Illegal position (fields)
> setboard 4k3/8/8/8/8/8/8/K3K3 x - - 0
tellusererror Illegal position (fields)
> setboard 4k3/9/8/8/8/8/8/4K3 w - - 0 1
tellusererror Illegal position (placement)
> setboard 4k3/8/8/8/8/8/8/K3K3 x - - 0 1
tellusererror Illegal position (side)
> setboard 4k3/8/8/8/8/8/8/4K2R w KK - 0 1
tellusererror Illegal position (castling)
> setboard 4k3/8/8/8/8/8/8/4K3 w - e3 0 1
tellusererror Illegal position (en passant)
> setboard 4k3/8/8/8/8/8/8/4K3 w - - 1234567 1
tellusererror Illegal position (counters)
> setboard P3k3/8/8/8/8/8/8/4K3 w - - 0 1
tellusererror Illegal position (pawns)
> setboard 4k3/8/8/8/8/N7/PPPPPPPP/RNBQKBNR w - - 0 1
tellusererror Illegal position (men)
> setboard 4k3/8/8/8/8/8/8/4R1K1 w - - 0 1
tellusererror Illegal position (check)
> setboard 4k3/8/8/8/8/8/8/4K3\tw - - 0 1
tellusererror Illegal position (fields)
> setboard 4k3/8/8/8/8/8/8/4K3 w - - 0 1 1
tellusererror Illegal position (fields)
> showfen
# fen rnbqkbnr/pppppppp/8/8/3P4/8/PPP1PPPP/RNBQKBNR b KQkq d3 0 1
",
    // What is read is written in one form.
    b"> setboard 4k3/8/8/8/8/8/8/4K2R  w  K -
> showfen
# fen 4k3/8/8/8/8/8/8/4K2R w K - 0 1
> setboard 4k3/44/8/8/8/8/4P3/4K3 b - - 0 0
> showfen
# fen 4k3/8/8/8/8/8/4P3/4K3 b - - 0 1
> setboard r3k2r/8/8/8/8/8/8/R3K2R w qkQK - 3 7
> showfen
# fen r3k2r/8/8/8/8/8/8/R3K2R w KQkq - 3 7
",
];

/// Ends of games: verdicts of the board, claimed draws and declared results; and games as PGN.
pub const ENDS: &[&[u8]] = &[
    // Black mates in two moves; the game is over until the move is taken back.
    b"> new
> f2f3
> e7e5
> g2g4
> d8h4
0-1 {Black mates}
> a2a3
Illegal move (game over): a2a3
> usermove x
Illegal move (game over): x
> showmoves
# moves 0
> undo
> d8e7
> a2a3
> new
> a2a3
",
    // White mates in four: 1. e4 e5 2. Bc4 Nc6 3. Qh5 Nf6 4. Qxf7#.
    b"> e2e4
> e7e5
> f1c4
> b8c6
> d1h5
> g8f6
> h5f7
1-0 {White mates}
> e8f7
Illegal move (game over): e8f7
> undo
> undo
> undo
> showfen
# fen r1bqkbnr/pppp1ppp/2n5/4p3/2B1P3/8/PPPP1PPP/RNBQK1NR w KQkq - 2 3
",
    // Mate, and what comes after it.
    b"> new
> f2f3
> e7e5
> g2g4
> d8h4
0-1 {Black mates}
> a2a3
Illegal move (game over): a2a3
> result 1-0 {x}
Error (the board says otherwise): result 1-0 {x}
> claim
Error (command not legal now): claim
> showpgn
# [Event \"?\"]
# [Site \"?\"]
# [Date \"????.??.??\"]
# [Round \"?\"]
# [White \"?\"]
# [Black \"?\"]
# [Result \"0-1\"]
# [Termination \"normal\"]
#\x20
# 1. f3 e5 2. g4 Qh4# 0-1
#\x20
> result 0-1 {x}
> showstate
# state ply 4 rep 1 clock 1 claims none verdict 0-1 {Black mates} declared 0-1 {x}
",
    // Stalemate in ten, by Sam Loyd: 10. Qe6.
    b"> e2e3
> a7a5
> d1h5
> a8a6
> h5a5
> h7h5
> h2h4
> a6h6
> a5c7
> f7f6
> c7d7
> e8f7
> d7b7
> d8d3
> b7b8
> d3h7
> b8c8
> f7g6
> c8e6
1/2-1/2 {Stalemate}
> showfen
# fen 5bnr/4p1pq/4Qpkr/7p/7P/4P3/PPPP1PP1/RNB1KBNR b KQ - 2 10
",
    // Mate comes before 75 moves; a bishop is too little.
    b"> setboard 7k/8/6K1/8/8/8/8/R7 w - - 149 200
> a1a8
1-0 {White mates}
> setboard 8/8/4k3/8/8/3BK3/8/8 w - - 0 1
1/2-1/2 {Insufficient material}
> d3c4
Illegal move (game over): d3c4
> setboard 4k3/8/8/8/8/8/8/R3K3 w - - 149 100
> a1a2
1/2-1/2 {75-move rule}
> showstate
# state ply 1 rep 1 clock 150 claims 50 verdict 1/2-1/2 {75-move rule} declared none
",
    // A target that no pawn can capture on makes no difference.
    b"> setboard rnbqkbnr/pppppppp/8/8/4P3/8/PPPP1PPP/RNBQKBNR b KQkq e3 0 1
> g8f6
> g1f3
> f6g8
> f3g1
> showfen
# fen rnbqkbnr/pppppppp/8/8/4P3/8/PPPP1PPP/RNBQKBNR b KQkq - 4 3
> showstate
# state ply 4 rep 2 clock 4 claims none verdict none declared none
",
    // One on which a pawn can capture does, and so do lost rights.
    b"> setboard 4k3/8/8/8/3pP3/8/8/4K2R b K e3 0 1
> e8d8
> e1f1
> d8e8
> f1e1
> showstate
# state ply 4 rep 1 clock 4 claims none verdict none declared none
> e8d8
> h1h2
> d8e8
> h2h1
> showstate
# state ply 8 rep 2 clock 8 claims none verdict none declared none
",
    // Three times, claimed.
    b"> new
> g1f3
> g8f6
> f3g1
> f6g8
> g1f3
> g8f6
> f3g1
> f6g8
> showstate
# state ply 8 rep 3 clock 8 claims threefold verdict none declared none
> claim
1/2-1/2 {Threefold repetition}
> showstate
# state ply 8 rep 3 clock 8 claims threefold verdict none declared 1/2-1/2 {Threefold repetition}
> g1f3
Illegal move (game over): g1f3
",
    // Five times; the first line of moves has 79 characters.
    b"> new
> g1f3
> g8f6
> f3g1
> f6g8
> g1f3
> g8f6
> f3g1
> f6g8
> g1f3
> g8f6
> f3g1
> f6g8
> g1f3
> g8f6
> f3g1
> f6g8
1/2-1/2 {Fivefold repetition}
> showpgn
# [Event \"?\"]
# [Site \"?\"]
# [Date \"????.??.??\"]
# [Round \"?\"]
# [White \"?\"]
# [Black \"?\"]
# [Result \"1/2-1/2\"]
# [Termination \"normal\"]
#\x20
# 1. Nf3 Nf6 2. Ng1 Ng8 3. Nf3 Nf6 4. Ng1 Ng8 5. Nf3 Nf6 6. Ng1 Ng8 7. Nf3 Nf6 8.
# Ng1 Ng8 1/2-1/2
#\x20
> undo
> showstate
# state ply 15 rep 4 clock 15 claims threefold verdict none declared none
",
    // Fifty moves, claimed; and 75 at the start.
    b"> setboard 4k3/8/8/8/8/8/8/R3K3 w - - 99 80
> claim
Error (no claim): claim
> a1a2
> claim
1/2-1/2 {50-move rule}
> setboard 4k3/8/8/8/8/8/8/R3K3 w - - 150 100
1/2-1/2 {75-move rule}
",
    // Both claims.
    b"> setboard 4k3/8/8/8/8/8/8/R3K3 w - - 92 80
> a1a2
> e8d8
> a2a1
> d8e8
> a1a2
> e8d8
> a2a1
> d8e8
> showstate
# state ply 8 rep 3 clock 100 claims threefold+50 verdict none declared none
> claim
1/2-1/2 {Threefold repetition}
",
    // Results that are declared.
    b"> new
> result 1/2-1/2 {a{b}c}
> showstate
# state ply 0 rep 1 clock 0 claims none verdict none declared 1/2-1/2 {a?b?c}
> e2e4
Illegal move (game over): e2e4
> claim
Error (command not legal now): claim
> result 2-0
Error (bad result): result 2-0
> result *  {\x7F}
> showstate
# state ply 0 rep 1 clock 0 claims none verdict none declared * {?}
> e2e4
Illegal move (game over): e2e4
",
    // And that are not.
    b"> result
Error (bad result): result
> result 1-0 x
Error (bad result): result 1-0 x
> result 1-0 {
Error (bad result): result 1-0 {
> result 1-0 }{
Error (bad result): result 1-0 }{
> result 1-0{x}
Error (bad result): result 1-0{x}
> result 1-0 {x} y
Error (bad result): result 1-0 {x} y
> result {x}
Error (bad result): result {x}
> result 1-0 }
Error (bad result): result 1-0 }
> e2e4
> result 0-1
> showstate
# state ply 1 rep 1 clock 0 claims none verdict none declared 0-1 {}
> undo
> showstate
# state ply 0 rep 1 clock 0 claims none verdict none declared none
> result 1-0 {}
> showstate
# state ply 0 rep 1 clock 0 claims none verdict none declared 1-0 {}
",
    // A comment keeps its first 60 bytes.
    b"> result 1-0 {0123456789012345678901234567890123456789012345678901234567890}
> showstate
# state ply 0 rep 1 clock 0 claims none verdict none declared 1-0 \
{012345678901234567890123456789012345678901234567890123456789}
",
    // Games as PGN: from a start, one that Black begins too.
    b"> setboard 4k3/8/8/8/1b6/2N5/8/4K1N1 w - - 0 1
> g1e2
> showpgn now
# [Event \"?\"]
# [Site \"?\"]
# [Date \"????.??.??\"]
# [Round \"?\"]
# [White \"?\"]
# [Black \"?\"]
# [Result \"*\"]
# [FEN \"4k3/8/8/8/1b6/2N5/8/4K1N1 w - - 0 1\"]
# [SetUp \"1\"]
# [Termination \"unterminated\"]
#\x20
# 1. Ne2 *
#\x20
> setboard 4k3/8/8/8/8/8/4p3/K7 b - - 0 1
> e2e1q
> showpgn
# [Event \"?\"]
# [Site \"?\"]
# [Date \"????.??.??\"]
# [Round \"?\"]
# [White \"?\"]
# [Black \"?\"]
# [Result \"*\"]
# [FEN \"4k3/8/8/8/8/8/4p3/K7 b - - 0 1\"]
# [SetUp \"1\"]
# [Termination \"unterminated\"]
#\x20
# 1... e1=Q+ *
#\x20
",
];

/// Sessions that play Chess960, by `variant fischerandom`.
pub const CHESS960: &[&[u8]] = &[
    // Its initial position, castling by its rook and by its side.
    b"> variant fischerandom
> showfen
# fen rnbqkbnr/pppppppp/8/8/8/8/PPPPPPPP/RNBQKBNR w HAha - 0 1
> setboard 4k3/8/8/8/8/8/8/RK5R w KQ - 0 1
> showmoves
# moves 25 a1a2 a1a3 a1a4 a1a5 a1a6 a1a7 a1a8 O-O-O b1c1 O-O b1a2 b1b2 b1c2 h1c1 h1d1 h1e1 h1f1 h1g1 h1h2 h1h3 h1h4 \
h1h5 h1h6 h1h7 h1h8
> b1a1
> showfen
# fen 4k3/8/8/8/8/8/8/2KR3R b - - 1 1
> undo
> O-O
> showfen
# fen 4k3/8/8/8/8/8/8/R4RK1 b - - 1 1
> undo
> 0-0-0
> showfen
# fen 4k3/8/8/8/8/8/8/2KR3R b - - 1 1
",
    // A rook that uncovers the king; names of rights.
    b"> variant fischerandom
> setboard 4k3/8/8/8/8/8/8/rRK5 w B - 0 1
> O-O-O
Illegal move: O-O-O
> c1b1
Illegal move: c1b1
> showfen
# fen 4k3/8/8/8/8/8/8/rRK5 w B - 0 1
> setboard 4k3/8/8/8/8/8/8/RR2K2R w AH - 0 1
> showfen
# fen 4k3/8/8/8/8/8/8/RR2K2R w HA - 0 1
> setboard 4k3/8/8/8/8/8/8/RR2K2R w QK - 0 1
> showfen
# fen 4k3/8/8/8/8/8/8/RR2K2R w HA - 0 1
> setboard 4k3/8/8/8/8/8/8/RR2K2R w BA - 0 1
tellusererror Illegal position (castling)
> setboard 4k3/8/8/8/8/8/8/RR2K2R w QA - 0 1
tellusererror Illegal position (castling)
> setboard 4k3/8/8/8/8/8/8/RR2K2R w C - 0 1
tellusererror Illegal position (castling)
> setboard 4k3/8/8/8/8/8/8/RR2K2R w E - 0 1
tellusererror Illegal position (castling)
> setboard 4k3/8/8/8/8/8/8/RR2K2R w k - 0 1
tellusererror Illegal position (castling)
> setboard 4k3/8/8/8/8/8/8/RR2K2R w AA - 0 1
tellusererror Illegal position (castling)
> setboard 4k3/8/8/8/8/8/8/RR2K2R w BA - 1234567 1
tellusererror Illegal position (counters)
> setboard 8/8/8/8/8/8/8/RR2K2R w BA - 0 1
tellusererror Illegal position (kings)
> setboard 4k3/8/8/8/8/8/4K3/RR5R w A - 0 1
tellusererror Illegal position (castling)
> setboard 4k3/8/8/8/8/8/8/RR2K2R w Ii - 0 1
tellusererror Illegal position (castling)
> setboard 4k3/8/8/8/8/8/8/RR2K2R w - - 0 1
> showfen
# fen 4k3/8/8/8/8/8/8/RR2K2R w - - 0 1
",
    // From one variant to the other.
    b"> e2e4
> variant normal
> showfen
# fen rnbqkbnr/pppppppp/8/8/4P3/8/PPPP1PPP/RNBQKBNR b KQkq e3 0 1
> variant fischerandom
> e2e4
> variant fischerandom
> showfen
# fen rnbqkbnr/pppppppp/8/8/8/8/PPPPPPPP/RNBQKBNR w HAha - 0 1
> e2e4
> variant normal
> showfen
# fen rnbqkbnr/pppppppp/8/8/8/8/PPPPPPPP/RNBQKBNR w KQkq - 0 1
> variant fischerandom
> new
> showfen
# fen rnbqkbnr/pppppppp/8/8/8/8/PPPPPPPP/RNBQKBNR w KQkq - 0 1
> setboard 4k3/8/8/8/8/8/8/4K2R w H - 0 1
tellusererror Illegal position (castling)
> variant fischerandom
> setboard 4k3/8/8/8/8/8/8/4K2R w H - 0 1
> Ke2
> undo
> e1g1
Illegal move: e1g1
> Kh1
Illegal move: Kh1
> O-O+
> showstate
# state ply 1 rep 1 clock 1 claims none verdict none declared none
> showpgn
# [Event \"?\"]
# [Site \"?\"]
# [Date \"????.??.??\"]
# [Round \"?\"]
# [White \"?\"]
# [Black \"?\"]
# [Result \"*\"]
# [FEN \"4k3/8/8/8/8/8/8/4K2R w H - 0 1\"]
# [SetUp \"1\"]
# [Termination \"unterminated\"]
# [Variant \"fischerandom\"]
#\x20
# 1. O-O *
#\x20
",
];

/// Sessions whose games have at most three half-moves.
pub const LIMITED: &[&[u8]] = &[
    b"> e2e4
> e7e5
> g1f3
> b8c6
Error (game too long): b8c6
> usermove x
Error (game too long): x
> undo
> b1c3
> showfen
# fen rnbqkbnr/pppp1ppp/8/4p3/4P3/2N5/PPPP1PPP/R1BQKBNR b KQkq - 1 2
",
];
