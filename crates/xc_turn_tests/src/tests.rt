mod notes;
mod sentinels;
mod turnstile;
