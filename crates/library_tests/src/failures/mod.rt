mod commands;
mod openings;
mod seals;
